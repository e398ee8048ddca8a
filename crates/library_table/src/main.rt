// Prints the table of the crate `library`, line for line as the source there has it. The entries are computed here and not taken from that
// crate: for each graph every assignment is tried.
#![tactic(auto)]

ghost use Rattle.std.specs.Prelude.{◌≡◌, ℕ, ◌+◌, ◌≤◌, ◌<◌, get_or};
ghost use Rattle.rules.specs.Basics.{sum_to};
ghost use Rattle.rules.specs.Score.{conflicts_of};
ghost use Rattle.rules.specs.Library.{pair_number, indexed, entry_of};
ghost use Rattle.library_table.specs.Assignments.{masks_of, conflicts_between};

use std::{array, io};

// ---- conflicts

// The masks of the five pieces in the assignment with this number. The number's digits to base 3 are the masks.
fn masks_of(assignment: u8) -> [u8; 5]
    ensures { result ≡ masks_of assignment }
{
    [
        assignment % 3,
        assignment / 3 % 3,
        assignment / 9 % 3,
        assignment / 27 % 3,
        assignment / 81 % 3,
    ]
}

// The number of the pair u < v, which is the place of its bit in an index.
fn pair_number(u: usize, v: usize) -> usize
    requires u_lt_v { u < v }
    requires v_bound { v < 5 }
    ensures { (result ≡ pair_number 5 u v) × (result < 10) }
{
    u * (9 - u) / 2 + (v - u - 1)
}

// How many conflict edges the pair u < v has in the graph with this index: one or none.
fn conflict_edges(index: usize, u: usize, v: usize) -> u8
    requires u_lt_v { u < v }
    requires v_bound { v < 5 }
    ensures { result ≡ (indexed 5 index).conflicts u v }
{
    ((index >> pair_number(u, v)) % 2) as u8
}

// How many conflicts the pair u < v has: its edges, where the two are on one mask.
fn conflicts_between(index: usize, masks: &[u8; 5], u: usize, v: usize) -> u8
    requires u_lt_v { u < v }
    requires v_bound { v < 5 }
    ensures { result ≡ conflicts_between index masks.now u v }
{
    if masks[u] == masks[v] {
        conflict_edges(index, u, v)
    } else {
        0
    }
}

// How many conflicts v has with the pieces before it.
fn conflicts_before(index: usize, masks: &[u8; 5], v: usize) -> u8
    requires { v < 5 }
    ensures { result ≡ sum_to (λ u. conflicts_between index masks.now u v) v }
{
    (0..v).map(|u| conflicts_between(index, masks, u, v)).sum()
}

// How many conflicts an assignment has in the graph with this index.
fn conflicts(index: usize, assignment: u8) -> u8
    ensures { result ≡ conflicts_of (indexed 5 index) (masks_of assignment) 5 }
{
    let masks = masks_of(assignment);
    (0..5).map(|v| conflicts_before(index, &masks, v)).sum()
}

// The least number of conflicts of the graph with this index, over all 243 assignments.
fn least_conflicts(index: usize) -> u8
    ensures { (result ≡ entry_of index) × (result ≤ 10) }
{
    (0..243)
        .map(|assignment| conflicts(index, assignment))
        .min()
        .unwrap()
}

// ---- lines

// The digits of the entries from this index on, as many as a line has.
fn digits(first: usize) -> [u8; 64]
    requires { first < 1024 }
    ensures { (i : ℕ) → i < 64 → get_or result i 0 ≡ 48 + entry_of (first + i) }
{
    array::from_fn(|i| b'0' + least_conflicts(first + i))
}

// A line of the table, with what ends it in the source.
fn write_line(rt: &impl Print, first: usize, end: &[u8]) -> io::Result<()>
    requires { first < 1024 }
{
    rt.write_all(b"    ")?;
    rt.write_all(&digits(first))?;
    rt.write_all(end)
}

fn main(rt: HostRuntime) -> io::Result<()> {
    for line in 0..15usize {
        write_line(&rt, 64 * line, b"\\\n")?;
    }
    write_line(&rt, 960, b"\";\n")
}
