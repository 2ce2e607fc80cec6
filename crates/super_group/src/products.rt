// The products of rotations, as a table of their numbers.
ghost use Rattle.std.specs.Prelude.{◌≡◌, ◌<◌, length};
ghost use Rattle.space_ops.specs.GroupLaws.{rotation_group};
ghost use Rattle.super_group.specs.RotationTable.{IsProductRow, IsProductTable};

use space_ops::Group;

fn product_number(group: &Group, a: usize, b: usize) -> u8
    requires left { a < length group.now.ops }
    requires right { b < length group.now.ops }
    ensures { result ≡ (rotation_group group.now.ops).product a b }
{
    let product = group.op(a).compose(group.op(b));
    match group.index_of(product.rot) {
        Some(number) => number as u8,
        None => unreachable!(),
    }
}

fn product_row(group: &Group, a: usize) -> [u8; 48]
    requires { a < length group.now.ops }
    ensures { IsProductRow group.now.ops a (length group.now.ops) result }
{
    let mut row = [0; 48];
    for b in 0..group.len() {
        row[b] = product_number(group, a, b);
    }
    row
}

/// The table of a group; rows and columns past its rotations are 0.
pub fn product_table(group: &Group) -> [[u8; 48]; 48]
    ensures { IsProductTable group.now.ops (length group.now.ops) result }
{
    let mut table = [[0; 48]; 48];
    for a in 0..group.len() {
        table[a] = product_row(group, a);
    }
    table
}
