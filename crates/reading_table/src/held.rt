// What has been read, until it stands in a node.
use ada_tree::Node;
use base_kit::{Names, Text};

/// A value: a text or comments of a node to come, or a node.
#[derive(Drop)]
pub enum Held {
    Text(Text),
    Comments(Names),
    Tree(Node),
}
