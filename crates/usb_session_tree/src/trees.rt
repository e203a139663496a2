//! The tree of attributes that a script declares.

ghost use Rattle.std.specs.Prelude.{◌≡◌, IfOk, OnOk};
ghost use Rattle.usb_session_tree.specs.Trees.{with_item, tree_of};

use std::alloc::Global;
use usb_desc::NoMemory;
use usb_enum::AttrTree;
use usb_script_lines::Item;

/// Sets what a line declares.
fn set(tree: &mut AttrTree, item: &Item) -> Result<(), NoMemory>
    ensures tree { OnOk result (tree.new ≡ with_item tree.old item.now) }
{
    match item {
        Item::Attribute { path, name, value } => {
            tree.attr(path.as_str(), name.as_str(), value.as_slice())
        }
        Item::Denied { path, name, errno } => {
            tree.deny(path.as_str(), name.as_str(), errno.code())
        }
        Item::Child { path, name } => tree.child(path.as_str(), name.as_str()),
        Item::Link { path, name, target } => {
            tree.link(path.as_str(), name.as_str(), target.as_str())
        }
        Item::Entry { name, path } => tree.entry(name.as_str(), path.as_str()),
        Item::Root { errno } => tree.fail_listing(errno.code()),
        _ => Ok(()),
    }
}

/// The tree that the lines declare.
#[tactic(auto, unfolding(crate::specs::Trees::tree_of))]
pub fn tree_of(alloc: Global, items: &[Item]) -> Result<AttrTree, NoMemory>
    ensures tree { IfOk result (λ t. t ≡ tree_of items.now) }
{
    let mut tree = AttrTree::new(alloc);
    for item in items {
        set(&mut tree, item)?;
    }
    Ok(tree)
}
