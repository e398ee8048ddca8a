// A local problem.
ghost use Rattle.std.specs.Prelude.{◌≤◌, length};

use crate::lists::Lists;

// The local problem of a component: the lists of its places, and their fixed masks.
#[derive(Clone, Copy)]
pub struct Local<'a> {
    pub lists: &'a Lists,
    pub fixed: &'a [u8],
    pub ghost few: { length fixed.now ≤ 512 },
    pub ghost laid: { length fixed.now ≤ length lists.now },
}
