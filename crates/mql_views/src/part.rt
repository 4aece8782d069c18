//! The parts of a node.
ghost use Rattle.std.specs.Prelude.{◌≡◌, ◌≤◌, ◌+◌, ◌^◌, List, [], map, length, drop, IfOk};
ghost use Rattle.mql_forms.specs.Numbers.{form_number};
ghost use Rattle.mql_grammar.specs.Numbers.{class_number};
ghost use Rattle.mql_grammar.specs.Table.{listed};
ghost use Rattle.mql_views.specs.Cuts.{is};
ghost use Rattle.mql_views.specs.Seen.{head_seen, part_seen, seen};

use mql_forms::Form;
use mql_grammar::Class;
use mql_tree::Tree;

/// What a part is to the node that it is in.
#[derive(Clone, Copy)]
pub enum Head {
    /// A token of a class.
    Token(Class),
    /// A node of a form.
    Node(Form),
}

/// A part of a node.
#[derive(Clone, Copy)]
pub struct Part<'a> {
    /// The number of the node that it is, or, for a token, that it stands in: from 0 on in the order in which
    /// nodes begin, a node before its parts.
    pub at: u32,
    /// What it is.
    pub head: Head,
    /// Its tree.
    pub tree: &'a Tree,
}

/// Whether a class is one of these.
fn is_class(class: Class, wanted: &[Class]) -> bool
    ensures { result ≡ listed (class_number class) (map class_number wanted.now) }
{
    for own in wanted {
        if own.number() == class.number() {
            return true;
        }
    }
    false
}

/// Whether a form is one of these.
fn is_form(form: Form, wanted: &[Form]) -> bool
    ensures { result ≡ listed (form_number form) (map form_number wanted.now) }
{
    for own in wanted {
        if own.number() == form.number() {
            return true;
        }
    }
    false
}

/// Whether a part is a token of one of these classes, or a node of one of these forms.
#[tactic(auto, unfolding(crate::specs::Cuts::is))]
pub(crate) fn is(classes: &[Class], forms: &[Form], part: Part) -> bool
    ensures { result ≡ is classes.now forms.now (part_seen part.entry) }
{
    match part.head {
        Head::Token(class) => is_class(class, classes),
        Head::Node(form) => is_form(form, forms),
    }
}

/// Whether a part is a token of one of these classes.
pub fn is_token(classes: &[Class], part: Part) -> bool
    ensures { result ≡ is classes.now [] (part_seen part.entry) }
{
    is(classes, &[], part)
}

/// Whether a part is a node of one of these forms.
pub fn is_node(forms: &[Form], part: Part) -> bool
    ensures { result ≡ is [] forms.now (part_seen part.entry) }
{
    is(&[], forms, part)
}
