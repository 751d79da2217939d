// The attributes that an identifier names.
ghost use Rattle.std.specs.Prelude.{◌≡◌, bytes_eq};
ghost use Rattle.ada_tree.specs.Tables.{first_value};
ghost use Rattle.static_values.specs.Rules.{attribute_of};

/// An attribute.
#[derive(Clone, Copy)]
pub enum Attribute {
    First,
    Last,
    Succ,
    Pred,
    Pos,
}

/// How the attributes are written: T'FIRST, T'LAST, T'SUCC(E), T'PRED(E), T'POS(E).
pub const ATTRIBUTES: [(Attribute, &str); 5] = [
    (Attribute::First, "FIRST"),
    (Attribute::Last, "LAST"),
    (Attribute::Succ, "SUCC"),
    (Attribute::Pred, "PRED"),
    (Attribute::Pos, "POS"),
];

// The attribute that is written so, in this table.
fn written_in(rows: &[(Attribute, &str)], text: &[u8]) -> Option<Attribute>
    ensures { result ≡ first_value (λ row. row.0) (λ row. bytes_eq row.1.now text.now) rows.now }
{
    for (attribute, written) in rows {
        if written.as_bytes() == text {
            return Some(*attribute);
        }
    }
    None
}

impl Attribute {
    /// The attribute that is written so.
    pub fn of(text: &[u8]) -> Option<Attribute>
        ensures { result ≡ attribute_of text.now }
    {
        written_in(&ATTRIBUTES, text)
    }
}
