//! A reader of the definition of which events a text has, in the logic alone: what stands it reads, and what it reads
//! stands. So a text has one reading.
#![tactic(auto)]

ghost use Rattle.std.specs.Prelude.{◌≡◌, ◌≤◌, ℕ, Bool, false, true, ◌++◌, List, None, Some};
ghost use Rattle.yaml_grammar.specs.BlockTexts.{block_at};
ghost use Rattle.yaml_grammar.specs.Blocks.{BlockNode, Key, Room, ends_key};
ghost use Rattle.yaml_grammar.specs.Brackets.{FlowNode};
ghost use Rattle.yaml_grammar.specs.Documents.{Stands};
ghost use Rattle.yaml_grammar.specs.Gaps.{ends_its_line};
ghost use Rattle.yaml_grammar.specs.Leaves.{Leaf, leaf_at};
ghost use Rattle.yaml_grammar.specs.Names.{Names, names_at};
ghost use Rattle.yaml_grammar.specs.Nodes.{Document, Marked, Node, events_of, node_events};
ghost use Rattle.yaml_grammar.specs.Plain.{Context, as_key, by_columns};
ghost use Rattle.yaml_reading.specs.BlockReader.{columns_at, key_at, node_at};
ghost use Rattle.yaml_reading.specs.BracketReader.{brackets_at, flow_at};
ghost use Rattle.yaml_reading.specs.DocumentReader.{text_events};
ghost use Rattle.yaml_reading.specs.Refused.{NothingStands, NothingStandsInThese, NothingStandsInTheseEither};
ghost use Rattle.yaml_reading.specs.Refused.{so_many_open};

/// A law: a text has one reading. The documents that stand in it are these alone, with all their marks.
pub fn a_text_has_one_reading()
    ensures { (text : List ℕ) (a b : List Document) → Stands text a → Stands text b → a ≡ b }
{}

/// A law: the reader reads the documents that stand in a text, what it reads are the events of such, and where it reads
/// nothing none stand. So whether documents stand in a text can be told.
pub fn texts_are_read()
    ensures read { (text : List ℕ) (documents : List Document) → Stands text documents
        → text_events text ≡ Some (events_of text documents) }
    ensures stand { (text : List ℕ) (events : List Marked) → text_events text ≡ Some events
        → (documents : List Document) × Stands text documents × (events ≡ events_of text documents) }
    ensures nothing { (text : List ℕ) → text_events text ≡ None → NothingStands text }
{}

/// A law: nothing stands in twenty-eight texts that libyaml refuses, each for one mistake, as the reader shows. So the
/// definition is not so wide that it takes one of them.
pub fn in_these_texts_nothing_stands()
    ensures { NothingStandsInThese }
{}

/// A law: nor does anything stand in these texts, though libyaml takes each: the limits of the definition. Of 128 open
/// collections a document stands, and of 129 none.
pub fn these_texts_are_left_out()
    ensures nothing { NothingStandsInTheseEither }
    ensures most { (documents : List Document) × Stands (so_many_open 128) documents }
{}

/// A law: documents with the same events are the same, so that events lose nothing of them.
pub fn events_tell_their_documents()
    ensures { (text : List ℕ) (a b : List Document) → events_of text a ≡ events_of text b → a ≡ b }
{}

/// A law: a node by columns has one reading. In one place, within however many nestings, stands one node, and behind
/// it one token comes next.
pub fn a_node_by_columns_has_one_reading()
    ensures { (text : List ℕ) (d e least : ℕ) (room : Room) (i j k : ℕ) (m n : Node)
        → BlockNode text d least room i j m → BlockNode text e least room i k n → (j ≡ k) × (m ≡ n) }
{}

/// A law: the reader reads each node by columns that stands there, and what it reads is one.
pub fn nodes_by_columns_are_read()
    ensures read { (text : List ℕ) (d least : ℕ) (room : Room) (i j : ℕ) (n : Node) (es : List Marked)
        → BlockNode text d least room i j n
        → node_at text (columns_at text d) (brackets_at text d) least room es i ≡ Some (es ++ node_events n, j) }
    ensures stand { (text : List ℕ) (d least : ℕ) (room : Room) (i j : ℕ) (es xs : List Marked)
        → node_at text (columns_at text d) (brackets_at text d) least room es i ≡ Some (xs, j)
        → (n : Node) × BlockNode text d least room i j n × (xs ≡ es ++ node_events n) }
{}

/// A law: a key in a line has one reading, and its `:` one place. The reader reads each that stands there, and what it
/// reads is one.
pub fn a_key_has_one_reading()
    ensures one { (text : List ℕ) (d e i j k : ℕ) (m n : Node) → Key text d i j m → Key text e i k n
        → (j ≡ k) × (m ≡ n) }
    ensures read { (text : List ℕ) (d i k : ℕ) (n : Node) (es : List Marked) → Key text d i k n
        → key_at text (brackets_at text d) es i ≡ Some (es ++ node_events n, k) }
    ensures stand { (text : List ℕ) (d i k : ℕ) (es xs : List Marked)
        → key_at text (brackets_at text d) es i ≡ Some (xs, k)
        → (n : Node) × Key text d i k n × (xs ≡ es ++ node_events n) }
{}

/// A law: a node in brackets has one reading. In one place, within however many nestings, stands one node, which has
/// one end.
pub fn a_node_in_brackets_has_one_reading()
    ensures { (text : List ℕ) (d e i j k : ℕ) (m n : Node) → FlowNode text d i j m → FlowNode text e i k n
        → (j ≡ k) × (m ≡ n) }
{}

/// A law: the reader reads each node in brackets that stands there, and what it reads is one.
pub fn nodes_in_brackets_are_read()
    ensures read { (text : List ℕ) (d i j : ℕ) (n : Node) (es : List Marked) → FlowNode text d i j n
        → flow_at text (brackets_at text d) es i ≡ Some (es ++ node_events n, j) }
    ensures stand { (text : List ℕ) (d i j : ℕ) (es xs : List Marked)
        → flow_at text (brackets_at text d) es i ≡ Some (xs, j)
        → (n : Node) × FlowNode text d i j n × (xs ≡ es ++ node_events n) }
{}

/// A law: names, leaves and blocks of lines are functions of their place, and end there or further on.
pub fn leaves_go_forward()
    ensures names { (text : List ℕ) (flow : Bool) (i j : ℕ) (names : Names) → names_at text flow i ≡ Some (names, j)
        → i ≤ j }
    ensures leaf { (text : List ℕ) (context : Context) (i j : ℕ) (leaf : Leaf) → leaf_at text context i ≡ Some (leaf, j)
        → i ≤ j }
    ensures block { (text : List ℕ) (least i j : ℕ) (said : List ℕ) → block_at text least i ≡ Some (j, said) → i ≤ j }
{}

/// A law: a leaf that is a key is the same leaf where it may go on in later lines, and does not end its line. So
/// whether a leaf is a key can be told once it has been read.
pub fn a_key_is_read_as_a_leaf()
    ensures same { (text : List ℕ) (least i q e : ℕ) (leaf : Leaf) → i ≤ e → ends_key text i e ≡ true
        → leaf_at text as_key q ≡ Some (leaf, e) → leaf_at text (by_columns least) q ≡ Some (leaf, e) }
    ensures in_line { (text : List ℕ) (i e : ℕ) → i ≤ e → ends_key text i e ≡ true → ends_its_line text e ≡ false }
{}
