// The draft as a script file.
ghost use Rattle.std.specs.Prelude.{◌<◌, ◌≤◌};

use super::{Desk, Node};
use test_values::rows::FILE_BYTES;

// Puts a size at a place: two bytes, low byte first.
fn put_size(file: &mut [u8; FILE_BYTES], i: usize, size: usize)
    requires { i ≤ 2 }
{
    file[i] = (size % 256) as u8;
    file[i + 1] = (size / 256 % 256) as u8;
}

// Puts a node: its kind's byte, and its operand, low byte first, after the kinds of all nodes.
fn put_node(node: Node, i: usize, nodes: usize, file: &mut [u8; FILE_BYTES])
    requires { (nodes ≤ 1024) × (i < 1024) }
{
    file[4 + i] = node.kind as u8;
    let at = 4 + nodes + 8 * i;
    file[at..at + 8].copy_from_slice(&node.operand.to_le_bytes());
}

// The draft as a script file; its length.
pub fn write_file(desk: &Desk, file: &mut [u8; FILE_BYTES]) -> usize
    ensures { result ≤ 9220 }
{
    let nodes = desk.nodes();
    put_size(file, 0, desk.functions);
    put_size(file, 2, nodes.len());
    for (i, node) in nodes.iter().enumerate() {
        put_node(*node, i, nodes.len(), file);
    }
    4 + 9 * nodes.len()
}
