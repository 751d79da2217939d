// What has been read, and what the symbols of the table do with it.
ghost use Rattle.std.specs.Prelude.{◌≡◌, Bool, [], ◌∷◌, ◌++◌, map, take, IsTrue, IfOk, OnOk};
ghost use Rattle.reading_machine.specs.Bare.{bare, kids_held, counts_with, lost_with, passes};
ghost use Rattle.reading_machine.specs.Lexemes.{lexeme_of, token_of};
ghost use Rattle.reading_machine.specs.Machines.{nothing_read, with_comment};
ghost use Rattle.reading_machine.specs.Values.{state_of, weighed_of, with_option, only_node};
ghost use Rattle.reading_table.specs.declared.held.Held.TheVariants as held;
ghost use Rattle.reading_table.specs.Machine.{apply};
ghost use Rattle.reading_table.specs.Heights.{rise};
ghost use Rattle.reading_table.specs.Reading.{reading_table, view_in};
ghost use Rattle.reading_table.specs.Tables.{token as token_view};
ghost use Rattle.reading_table.specs.Weighed.{weighed_table};
ghost use Rattle.reading_table.specs.Rows.{placed};
ghost use Rattle.reading_table.specs.States.{text_in, nodes_in, text_held, text_below, noted, end_noted, built, joined, pasted, lowered, does, set_of, taken};

use crate::lexeme::{Token, text_from};
use crate::measured::Masses;
use crate::stack::Stack;
use ada_tree::{Counts, Kids, Kind, Node, add_counts};
use base_kit::{Copied, Memory, Names, Text};
use reading_table::{Held, Symbol, Tokens};
use std::alloc::Global;
use std::{mem, slice};

/// The values, what limits see of them, and the comments that no place has taken yet.
#[derive(Drop)]
pub struct Values {
    pub values: Stack<Held>,
    pub masses: Masses,
    pub waiting: Names,
}

impl Values {
    /// There are none.
    pub fn new(alloc: Global) -> Self
        ensures { weighed_of result ≡ nothing_read }
    {
        Values {
            values: Stack::new(alloc),
            masses: Masses::new(alloc),
            waiting: Names::new(alloc),
        }
    }

    /// A comment comes, and waits for its place.
    pub fn wait(&mut self, comment: Text) -> Result<(), Memory>
        ensures { OnOk result (weighed_of self.new ≡ with_comment comment (weighed_of self.old)) }
    {
        self.waiting.push(comment)
    }

    /// The one value, if it is a node.
    pub fn into_node(mut self) -> Option<Node>
        ensures { result ≡ only_node self.values }
    {
        match (self.values.pop(), self.values.pop()) {
            (Some(Held::Tree(node)), None) => Some(node),
            _ => None,
        }
    }

    /// Drops the comments and kids of the nodes, which no reading looks at. It answers how many nodes are
    /// lost then, where so many were lost before.
    #[tactic(auto, using(crate::proofs::Counting::all_taken))]
    pub fn thin_out(&mut self, alloc: Global, lost: Counts) -> Result<Counts, Memory>
        ensures { IfOk result (λ more. (self.new ≡ record self.old { values = map bare self.old.values }) × (more ≡ lost_with lost self.old.values)) }
    {
        let count = self.values.len();
        let (values, lost) = thinned(alloc, &mut self.values, count, lost)?;
        self.values = values;
        Ok(lost)
    }

    /// The counts with the numbers of nodes here.
    pub fn counts_with(&self, mut counts: Counts) -> Counts
        ensures { result ≡ counts_with counts self.now.values }
    {
        for depth in 0..self.values.len() {
            add_counts(nodes_of(self.values.at(depth)), &mut counts);
        }
        counts
    }

    // Does what the symbol says, but for what limits see.
    fn do_to_values(&mut self, alloc: Global, symbol: Symbol) -> Result<(), Memory>
        ensures values { OnOk result (state_of self.new ≡ does symbol (state_of self.old)) }
        ensures masses { OnOk result (self.new.masses ≡ self.old.masses) }
    {
        let values = &mut self.values;
        match symbol {
            Symbol::Build(kind, count) => build(alloc, values, kind, count as usize),
            Symbol::Join => join(values),
            Symbol::Say(word) => values.push(Held::Text(text_from(alloc, word.text())?)),
            Symbol::Paste(between) => paste(values, between),
            Symbol::Lower => lower(values),
            Symbol::Recall(depth) => recall(alloc, values, depth as usize),
            Symbol::Noted => note(values),
            Symbol::Notes => {
                let comments = mem::replace(&mut self.waiting, Names::new(alloc));
                self.values.push(Held::Comments(comments))
            }
            Symbol::EndNotes => {
                let comments = mem::replace(&mut self.waiting, Names::new(alloc));
                end_notes(&mut self.values, comments)
            }
            _ => Ok(()),
        }
    }

    /// Does what the symbol says; a symbol of a token or a part says nothing.
    pub fn act(&mut self, alloc: Global, symbol: Symbol) -> Result<(), Memory>
        ensures { OnOk result (weighed_of self.new ≡ record { state = does symbol (state_of self.old); masses = rise symbol self.old.masses }) }
    {
        self.do_to_values(alloc, symbol)?;
        self.masses.rise(symbol)
    }

    /// Does what the symbols say, in order.
    pub fn act_all(&mut self, alloc: Global, symbols: &[Symbol]) -> Result<(), Memory>
        ensures { (note : Bool) → OnOk result (weighed_of self.new ≡ apply weighed_table (placed note symbols.now) (weighed_of self.old)) }
    {
        for symbol in symbols {
            self.act(alloc, *symbol)?;
        }
        Ok(())
    }

    /// Takes the token for the symbol on this side, if it may stand for it, and tells whether it did.
    pub fn take(
        &mut self,
        alloc: Global,
        note: bool,
        symbol: Symbol,
        token: Token,
    ) -> Result<bool, Memory>
        requires { view_in note symbol ≡ token_view }
        ensures fits { IfOk result (λ fits. fits ≡ reading_table.fits (note, symbol) (state_of self.old) (token_of token)) }
        ensures taken { IfOk result (λ fits. IsTrue fits → weighed_of self.new ≡ weighed_table.taken (note, symbol) (weighed_of self.old) (token_of token)) }
    {
        if !token.may_be(note, set_of(symbol)) {
            return Ok(false);
        }
        match symbol {
            Symbol::Closing(depth) => Ok(
                token
                    .lexeme
                    .is_text(text_below(&self.values, depth as usize)),
            ),
            Symbol::Keep(_) => {
                let text = token.lexeme.into_text(alloc)?;
                self.values.push(Held::Text(text))?;
                self.masses.rise(symbol)?;
                Ok(true)
            }
            _ => Ok(true),
        }
    }
}

fn set_of(symbol: Symbol) -> Tokens
    ensures { result ≡ set_of symbol }
{
    match symbol {
        Symbol::Take(set) | Symbol::Keep(set) => set,
        _ => Tokens::Name,
    }
}

/// Tells whether one of the counts is past its limit, if there is a limit.
pub fn passes(most: Option<Counts>, counts: Counts) -> bool
    ensures { result ≡ passes most counts }
{
    match most {
        None => false,
        Some(most) => counts.tree > most.tree || counts.proof > most.proof,
    }
}

// The value without comments and kids.
fn bare(alloc: Global, value: Held) -> Held
    ensures { result ≡ bare value }
{
    match value {
        Held::Text(text) => Held::Text(text),
        Held::Comments(comments) => Held::Comments(comments),
        Held::Tree(Node { kind, text, .. }) => Held::Tree(Node {
            kind,
            text,
            notes: Names::new(alloc),
            kids: Kids::new(alloc),
        }),
    }
}

// The last values, so many or all, without comments and kids; and how many nodes are lost then.
fn thinned(
    alloc: Global,
    values: &mut Stack<Held>,
    count: usize,
    mut lost: Counts,
) -> Result<(Stack<Held>, Counts), Memory>
    ensures values { IfOk result (λ thinned. thinned.0 ≡ map bare (take count values.old)) }
    ensures lost { IfOk result (λ thinned. thinned.1 ≡ lost_with lost (take count values.old)) }
{
    let mut thinned = Stack::new(alloc);
    for value in values.take_last(count)? {
        add_counts(kids_of(&value), &mut lost);
        thinned.push(bare(alloc, value))?;
    }
    Ok((thinned, lost))
}

fn kids_of(value: &Held) -> &[Node]
    ensures { result.now ≡ kids_held value.now }
{
    match value {
        Held::Text(_) => &[],
        Held::Comments(_) => &[],
        Held::Tree(node) => node.kids.as_slice(),
    }
}

fn nodes_of(value: &Held) -> &[Node]
    ensures { result.now ≡ nodes_in (value.now ∷ []) }
{
    match value {
        Held::Text(_) => &[],
        Held::Comments(_) => &[],
        Held::Tree(node) => slice::from_ref(node),
    }
}

/// Adds a value to the parts of a node, and answers the node's text.
fn add_part(part: Held, text: Text, kids: &mut Kids) -> Result<Text, Memory>
    ensures text { IfOk result (λ new. new ≡ text_in (part ∷ held.Text text ∷ [])) }
    ensures kids { OnOk result (kids.new ≡ kids.old ++ nodes_in (part ∷ [])) }
{
    match part {
        Held::Text(own) => Ok(own),
        Held::Comments(_) => Ok(text),
        Held::Tree(node) => {
            kids.push(node)?;
            Ok(text)
        }
    }
}

// The last values become a node.
#[tactic(auto, using(crate::proofs::Building::text_further, crate::proofs::Building::nodes_further))]
fn build(alloc: Global, values: &mut Stack<Held>, kind: Kind, count: usize) -> Result<(), Memory>
    ensures { OnOk result (values.new ≡ built kind count values.old) }
{
    let mut text = Text::from(Vec::new(alloc));
    let mut kids = Kids::new(alloc);
    for part in values.take_last(count)? {
        text = add_part(part, text, &mut kids)?;
    }
    values.push(Held::Tree(Node {
        kind,
        text,
        notes: Names::new(alloc),
        kids,
    }))
}

// The last value becomes the last member of the list before it.
fn join(values: &mut Stack<Held>) -> Result<(), Memory>
    ensures { OnOk result (values.new ≡ joined values.old) }
{
    match (values.pop(), values.pop()) {
        (Some(Held::Tree(member)), Some(Held::Tree(mut list))) => {
            list.kids.push(member)?;
            values.push(Held::Tree(list))
        }
        (last, before) => put_back(values, before, last),
    }
}

// Puts back what was taken.
fn put_back(
    values: &mut Stack<Held>,
    before: Option<Held>,
    last: Option<Held>,
) -> Result<(), Memory>
    ensures { OnOk result (values.new ≡ with_option last (with_option before values.old)) }
{
    if let Some(value) = before {
        values.push(value)?;
    }
    if let Some(value) = last {
        values.push(value)?;
    }
    Ok(())
}

// The last two values, which are texts, become one, with this byte between them.
fn paste(values: &mut Stack<Held>, between: u8) -> Result<(), Memory>
    ensures { OnOk result (values.new ≡ pasted between values.old) }
{
    match (values.pop(), values.pop()) {
        (Some(Held::Text(back)), Some(Held::Text(front))) => {
            let mut bytes = front.into_vec();
            bytes.push(between)?;
            bytes.extend_from_slice(back.as_bytes())?;
            values.push(Held::Text(Text::from(bytes)))
        }
        (last, before) => put_back(values, before, last),
    }
}

// The last value, a text, is put in lower case.
fn lower(values: &mut Stack<Held>) -> Result<(), Memory>
    ensures { OnOk result (values.new ≡ lowered values.old) }
{
    match values.pop() {
        Some(Held::Text(text)) => {
            let mut bytes = text.into_vec();
            bytes.make_ascii_lowercase();
            values.push(Held::Text(Text::from(bytes)))
        }
        last => put_back(values, None, last),
    }
}

fn text_held(value: &Held) -> &[u8]
    ensures { result.now ≡ text_held value.now }
{
    match value {
        Held::Text(text) => text.as_bytes(),
        Held::Comments(_) => &[],
        Held::Tree(node) => node.text.as_bytes(),
    }
}

// The text of the value so many below the last one.
fn text_below(values: &Stack<Held>, depth: usize) -> &[u8]
    ensures { result.now ≡ text_below depth values.now }
{
    match values.below(depth) {
        Some(value) => text_held(value),
        None => &[],
    }
}

// The text of the value so many below the last one becomes a value.
fn recall(alloc: Global, values: &mut Stack<Held>, depth: usize) -> Result<(), Memory>
    ensures { OnOk result (values.new ≡ held.Text (text_below depth values.old) ∷ values.old) }
{
    let text = Text::from(Vec::from_slice(alloc, text_below(values, depth))?);
    values.push(Held::Text(text))
}

// The comments before the last value, a node, become the node's.
fn note(values: &mut Stack<Held>) -> Result<(), Memory>
    ensures { OnOk result (values.new ≡ noted values.old) }
{
    match (values.pop(), values.pop()) {
        (Some(Held::Tree(mut node)), Some(Held::Comments(comments))) => {
            node.notes = comments;
            values.push(Held::Tree(node))
        }
        (last, before) => put_back(values, before, last),
    }
}

// The comments become those of the last value, a list or a file.
fn end_notes(values: &mut Stack<Held>, comments: Names) -> Result<(), Memory>
    ensures { OnOk result (values.new ≡ end_noted comments values.old) }
{
    match values.pop() {
        Some(Held::Tree(mut node)) => {
            node.notes = comments;
            values.push(Held::Tree(node))
        }
        last => put_back(values, None, last),
    }
}
