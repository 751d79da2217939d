// What holds of all documents. Each law is the contract of a function that does nothing.
ghost use Rattle.std.specs.Prelude.{◌≡◌, ℕ, suc, ◌<◌, List, [], ◌∷◌, length, map, take, None, Some};
ghost use Rattle.std.specs.List.{AllByRecursion};
ghost use Rattle.ada_tree.specs.declared.node.Node.{Node};
ghost use Rattle.ada_tree.specs.declared.doc.DeclId.{DeclId};
ghost use Rattle.ada_tree.specs.Sights.{declared};
ghost use Rattle.ada_names.specs.declared.entry.Entry.{Entry};
ghost use Rattle.ada_names.specs.Collecting.{entries_of};
ghost use Rattle.ada_names.specs.Sees.{sees, found, one, in_region, region_of, seen_from};
ghost use Rattle.name_laws.specs.Laws.{VisibleAs, IsVisible, EndsIn, IsFront, BeginsWith, Apart, ClausesApart, renamed, IsRenamed, IsAlone, IsNew, IsUnused, PassBy};

/// A name sees one declaration at most.
pub fn a_name_sees_one_declaration()
    ensures { (doc : Node) (parts : List (List ℕ)) (place : List ℕ) (a b : DeclId)
        → sees doc parts place ≡ declared a → sees doc parts place ≡ declared b → a ≡ b }
{}

/// What a name sees is visible there: it stands in a region round the place and has ended before it, or is
/// a package round it; or its library unit is named by the context; or a used package shows it; or it is
/// predefined; or, in a term, an earlier operator. Of `P.X`, P sees a package that shows X; in a trait, X is
/// a type that the earlier package P shows.
pub fn what_is_seen_is_visible()
    ensures { (doc : Node) (parts : List (List ℕ)) (place : List ℕ) (id : DeclId)
        → sees doc parts place ≡ declared id → IsVisible (entries_of doc) place parts id }
{}

/// The same of all that a name is found to be, bound names included.
pub fn what_is_found_is_visible()
    ensures { (es : List Entry) (parts : List (List ℕ)) (place : List ℕ) (e : Entry)
        → found es parts place ≡ one e → VisibleAs es place parts e }
{}

/// It has the last name of the parts: marks that see one declaration end in its name.
pub fn what_is_found_has_the_last_name()
    ensures { (es : List Entry) (parts : List (List ℕ)) (place : List ℕ) (e : Entry)
        → found es parts place ≡ one e → EndsIn parts e.name }
{}

/// A visible declaration in a region hides those of all regions round it.
pub fn inner_declarations_hide_outer_ones()
    ensures { (es : List Entry) (place name : List ℕ) (e : Entry) (n : ℕ) → n < length place
        → in_region es place name (region_of es (take (suc n) place)) ≡ Some e
        → ((m : ℕ) → n < m → m < length place
        → in_region es place name (region_of es (take (suc m) place)) ≡ None)
        → seen_from es place name (length place) ≡ Some e }
{}

/// The entries of a document up to a place, with their numbers, don't depend on what follows.
pub fn entries_dont_depend_on_what_follows()
    ensures { (front whole : Node) → IsFront front whole
        → BeginsWith (entries_of front) (entries_of whole) }
{}

/// A declaration under another name leaves the answer for each other name as it was: a name none of whose
/// parts is the old or the new one, where no `use` clause names either.
pub fn renaming_changes_no_other_answer()
    ensures { (at new : List ℕ) (es : List Entry) (place : List ℕ) (parts : List (List ℕ))
        → AllByRecursion (Apart at new es) parts → ClausesApart at new es
        → found (map (renamed at new) es) parts place ≡ found es parts place }
{}

/// A document with another name at one node says the same of names, under that name: where what stands
/// there shares its region and name with nothing else, and nothing has the new name.
pub fn renamed_documents_say_the_same()
    ensures { (number : ℕ) (rest new : List ℕ) (doc other : Node)
        → IsRenamed new (number ∷ rest) doc other → IsAlone (number ∷ rest) new (entries_of doc)
        → entries_of other ≡ map (renamed (number ∷ rest) new) (entries_of doc) }
{}

/// And every other name sees at every place what it saw: a name none of whose parts is the old or the new
/// one, where no `use` clause names either.
pub fn other_names_see_the_same()
    ensures { (number : ℕ) (rest new : List ℕ) (doc other : Node)
        (parts : List (List ℕ)) (place : List ℕ)
        → IsRenamed new (number ∷ rest) doc other → IsAlone (number ∷ rest) new (entries_of doc)
        → AllByRecursion (Apart (number ∷ rest) new (entries_of doc)) parts
        → ClausesApart (number ∷ rest) new (entries_of doc)
        → sees other parts place ≡ sees doc parts place }
{}

/// A declaration under another name leaves the answer for each name that doesn't see it, also for one that
/// is spelled as the old name: where the name wouldn't see it either if no operator came first, it isn't one
/// of several that used packages show, and no `use` clause sees it.
pub fn renaming_what_a_name_passes_by_changes_no_answer()
    ensures { (at new : List ℕ) (es : List Entry) (place : List ℕ) (parts : List (List ℕ))
        → IsUnused at new es → AllByRecursion (IsNew new) parts → PassBy at es place parts
        → found (map (renamed at new) es) parts place ≡ found es parts place }
{}

/// And so in a document with another name at one node each name that passes it by sees at every place what
/// it saw.
pub fn renaming_what_nothing_sees_changes_no_answer()
    ensures { (number : ℕ) (rest new : List ℕ) (doc other : Node)
        (parts : List (List ℕ)) (place : List ℕ)
        → IsRenamed new (number ∷ rest) doc other → IsUnused (number ∷ rest) new (entries_of doc)
        → AllByRecursion (IsNew new) parts → PassBy (number ∷ rest) (entries_of doc) place parts
        → sees other parts place ≡ sees doc parts place }
{}
