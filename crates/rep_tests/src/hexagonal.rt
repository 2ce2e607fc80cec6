// The twofold representation of the point K of a hexagonal lattice, for the group P 3 1 m. The line of
// the threefold rotation has a cell edge more than the listed operation.
ghost use Rattle.std.specs.Prelude.{◌≡◌, ◌<◌, true};
ghost use Rattle.small_rep.specs.SmallRep.{is_listed};

use crate::cases::{block_of, checked_of, group_of, star_of};
use cyclo24::{Field, K24, Z24};
use iso_text::Document;
use kstar::{KVector, Star};
use small_rep::CheckedRep;
use space_ops::Group;
use std::process::Abort;

const FILE: &str = "isodist 1
hall P 3 -2
irrep K3 2
k 1/3 1/3 0
mat x,y,z 1 0 0 1
mat -y+1,x-y,z 1 0 0 z8
mat -x+y,-x,z z16 0 0 z8
mat y,x,z 0 1 1 0
mat x-y,-y,z 0 z16 z8 0
mat -x,-x+y,z 0 z8 z16 0
end
";

const THREE: [[i8; 3]; 3] = [[0, -1, 0], [1, -1, 0], [0, 0, 1]];

const MIRROR: [[i8; 3]; 3] = [[0, 1, 0], [1, 0, 0], [0, 0, 1]];

fn entry_of(rep: &CheckedRep, rotation: usize, i: usize, j: usize) -> Z24
    requires listed { is_listed rep.now.rep.little rotation ≡ true }
    requires row { i < rep.now.rep.size }
    requires column { j < rep.now.rep.size }
{
    rep.get(rotation, i, j)
}

fn entries_of(rep: &CheckedRep, rotation: usize) -> [Z24; 4]
    requires listed { is_listed rep.now.rep.little rotation ≡ true }
    requires size { rep.now.rep.size ≡ 2 }
{
    [
        entry_of(rep, rotation, 0, 0),
        entry_of(rep, rotation, 0, 1),
        entry_of(rep, rotation, 1, 0),
        entry_of(rep, rotation, 1, 1),
    ]
}

// The entries of the 2 by 2 matrix of a rotation of the little group.
fn matrix_of(
    rt: &impl Abort,
    group: &Group,
    star: &Star,
    rep: &CheckedRep,
    rot: [[i8; 3]; 3],
) -> [Z24; 4]
    requires { rep.now.rep.little ≡ star.now.little }
{
    let rotation = group.index_of(rot).expect(rt, "a rotation");
    assert!(rt; star.little().contains(&rotation));
    assert!(rt; rep.size() == 2);
    entries_of(rep, rotation)
}

#[test]
fn carried_by_a_cell_edge(rt: HostRuntime) {
    let document = Document::read(rt.alloc(), FILE.as_bytes()).expect(&rt, "a file");
    let text = block_of(&rt, &document);
    let group = group_of(&rt, rt.alloc(), document.hall());
    let k = KVector { parts: text.k };
    assert!(rt; k.is_wave_vector());
    let star = star_of(&rt, rt.alloc(), &group, k);
    let rep = checked_of(&rt, rt.alloc(), &group, &star, text);
    assert!(rt; rep.size() == 2);
    assert!(rt; rep.sum() == K24::whole(6));
    let zero = Z24::zero();
    let one = Z24::one();
    let three = [Z24::root(8), zero, zero, Z24::root(16)];
    assert!(rt; matrix_of(&rt, &group, &star, &rep, THREE) == three);
    assert!(rt; matrix_of(&rt, &group, &star, &rep, MIRROR) == [zero, one, one, zero]);
}
