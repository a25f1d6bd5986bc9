//! What reading and spelling have to do with each other.

ghost use Rattle.std.specs.Prelude.{◌≡◌, ◌<◌, ℕ, ◌^◌, ◌/◌, List, Ok, Some, drop, get_or, length};
ghost use Rattle.std.specs.List.{AllByRecursion};
ghost use Rattle.rule_bytes.specs.declared.layout.BlobLayout.{BlobLayout};
ghost use Rattle.rule_bytes.specs.Spelling.{Spelling, Spells, put};
ghost use Rattle.rule_bytes.specs.Rules.{IsBytes, IsRule, Rule, rules_spelling};
ghost use Rattle.rule_bytes.specs.Reading.{rule_at, rules_in};
ghost use Rattle.rule_bytes.specs.declared.tables.ReplaceHeader.{ReplaceHeader};
ghost use Rattle.kernel_values.specs.declared.rules.TableName.{TableName};
ghost use Rattle.rule_bytes.specs.Tables.{IsLinked, IsWellFormed, SpellsTable, Table, entries_of, flow, index_of, no_rule, places, table_in};
ghost use Rattle.rule_bytes.specs.Maps.{IsRisingMap, all_sizes, map_of, native_in, place_in};
ghost use Rattle.rule_bytes.specs.declared.layout.BlobLayout.TheVariants.{Native};
ghost use Rattle.rule_walk.specs.Flow.{EntriesWithin, Judges, JumpsWithin};

/// Bytes are read as rules exactly where they spell them; and so there is one list of rules at most that they spell.
pub fn one_reading()
    ensures found { (l : BlobLayout) (bs : List ℕ) (rs : List Rule) → IsBytes bs → rules_in l bs ≡ Ok rs → Spells bs (rules_spelling l rs) × AllByRecursion IsRule rs }
    ensures only { (l : BlobLayout) (bs : List ℕ) (rs : List Rule) → AllByRecursion IsRule rs → Spells bs (rules_spelling l rs) → rules_in l bs ≡ Ok rs }
{}

/// A header and bytes are read as a table exactly where they spell it and it is linked; and so there is one such table at most.
pub fn one_table()
    ensures found { (l : BlobLayout) (name : TableName) (h : ReplaceHeader) (bs : List ℕ) (t : Table) → IsBytes bs → table_in l name h bs ≡ Ok t → (t.name ≡ name) × SpellsTable l h bs t × IsLinked t }
    ensures only { (l : BlobLayout) (name : TableName) (h : ReplaceHeader) (bs : List ℕ) (t : Table) → t.name ≡ name → SpellsTable l h bs t → IsLinked t → table_in l name h bs ≡ Ok t }
{}

/// The bytes that are put for a spelling are spelled so.
pub fn one_put()
    ensures { (s : Spelling) → Spells (put s) s }
{}

/// Accepted exactly when well formed: bytes whose table the walk has nothing against are those that spell a well formed table.
/// Each table that was read can be walked.
pub fn accepted()
    ensures only { (l : BlobLayout) (name : TableName) (h : ReplaceHeader) (bs : List ℕ) (t : Table) → IsBytes bs → table_in l name h bs ≡ Ok t → Judges (flow t.rules) (entries_of t) (Ok tt) → (t.name ≡ name) × SpellsTable l h bs t × IsWellFormed t }
    ensures each { (l : BlobLayout) (name : TableName) (h : ReplaceHeader) (bs : List ℕ) (t : Table) → t.name ≡ name → SpellsTable l h bs t → IsWellFormed t → (table_in l name h bs ≡ Ok t) × Judges (flow t.rules) (entries_of t) (Ok tt) }
    ensures walked { (t : Table) → IsLinked t → JumpsWithin (flow t.rules) × EntriesWithin (flow t.rules) (entries_of t) }
{}

/// The map of rules has as many entries as there are rules, with their places and native places; places rise, so that `find` looks
/// a place up, and the index that it tells is the one that the table's jump has.
pub fn mapped()
    ensures count { (l : BlobLayout) (rs : List Rule) → all_sizes l rs < 2 ^ 32 → all_sizes Native rs < 2 ^ 32 → length (map_of l rs) / 8 ≡ length rs }
    ensures placed { (l : BlobLayout) (rs : List Rule) (i : ℕ) → all_sizes l rs < 2 ^ 32 → all_sizes Native rs < 2 ^ 32 → i < length rs → place_in (map_of l rs) i ≡ get_or (places l 0 rs) i 0 }
    ensures native { (l : BlobLayout) (rs : List Rule) (i : ℕ) → all_sizes l rs < 2 ^ 32 → all_sizes Native rs < 2 ^ 32 → i < length rs → native_in (map_of l rs) i ≡ get_or (places Native 0 rs) i 0 }
    ensures rising { (l : BlobLayout) (rs : List Rule) → all_sizes l rs < 2 ^ 32 → all_sizes Native rs < 2 ^ 32 → IsRisingMap (map_of l rs) }
    ensures found { (l : BlobLayout) (rs : List Rule) (i : ℕ) → i < length rs → index_of (get_or (places l 0 rs) i 0) (places l 0 rs) ≡ Some i }
{}

/// At the place of an index stands the rule of that index; so a rule whose place was looked up can be read again.
pub fn placed_rule()
    ensures { (l : BlobLayout) (bs : List ℕ) (rs : List Rule) (i : ℕ) → rules_in l bs ≡ Ok rs → i < length rs → rule_at l (drop (get_or (places l 0 rs) i 0) bs) ≡ Ok (get_or rs i no_rule) }
{}
