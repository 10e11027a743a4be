// The walk over a window's pane, part by part, which takes its numbers up into runs.
//
// A pane with no square is left out, and one that is its whole block is one stretch of numbers, so that only blocks on the window's border are cut.
#![tactic(auto)]

ghost use Rattle.std.specs.Prelude.{◌≡◌, ◌*◌, ◌≤◌, length};
ghost use Rattle.division.specs.declared.Choice.TheVariants.{LongCut, UCut};
ghost use Rattle.division.specs.Division.{choice};
ghost use Rattle.panes.specs.Panes.{pane_at, seen, runs_of, pairs_into, Walks, Opens};
ghost use Rattle.panes.specs.Told.{told};

use division::Choice;
use panes::{Pane, Runs};

// Takes up the numbers of a pane, of which its block has those from n on. It is inlined, since as a call of its own it makes the whole walk half as long again.
#[inline(always)]
#[cycle(walk)]
fn walk(p: Pane, n: u32, runs: &mut Runs<'_>)
    requires { Walks p n runs.old.count }
    ensures told { told runs.new ≡ seen p (told runs.old) n }
    ensures same_slice { runs.new.pairs.ghost_name ≡ runs.old.pairs.ghost_name }
{
    if p.u1 <= p.u0 || p.v1 <= p.v0 {
        return;
    }
    if p.is_whole() {
        return runs.join(n, n + p.a * p.b);
    }
    walk_cut(p, n, runs)
}

// A pane that has a square, by its block's case.
#[cycle(walk)]
fn walk_cut(p: Pane, n: u32, runs: &mut Runs<'_>)
    requires { Walks p n runs.old.count × Opens p }
    ensures told { told runs.new ≡ seen p (told runs.old) n }
    ensures same_slice { runs.new.pairs.ghost_name ≡ runs.old.pairs.ghost_name }
{
    match division::choose(p.a, p.b) {
        Choice::StraightRun => runs.join(n + p.u0, n + p.u1),
        Choice::StraightSide => runs.join(n + p.v0, n + p.v1),
        Choice::LongCut => walk_long(p, n, runs),
        Choice::UCut if p.a == 2 && p.b <= 3 => runs.join_leaf(p, n),
        Choice::UCut => walk_u(p, n, runs),
    }
}

// The two parts of a long cut.
#[cycle(walk)]
fn walk_long(p: Pane, n: u32, runs: &mut Runs<'_>)
    requires { Walks p n runs.old.count × (choice p.a p.b ≡ LongCut) }
    ensures told { told runs.new ≡ seen p (told runs.old) n }
    ensures same_slice { runs.new.pairs.ghost_name ≡ runs.old.pairs.ghost_name }
{
    let e = division::even_half(p.a);
    walk(p.in_first(), n, runs);
    walk(p.in_second(), n + e * p.b, runs);
}

// The three parts of a U cut.
#[cycle(walk)]
fn walk_u(p: Pane, n: u32, runs: &mut Runs<'_>)
    requires { Walks p n runs.old.count × (choice p.a p.b ≡ UCut) }
    ensures told { told runs.new ≡ seen p (told runs.old) n }
    ensures same_slice { runs.new.pairs.ghost_name ≡ runs.old.pairs.ghost_name }
{
    let e = division::even_half(p.b);
    let to_b = n + e * (p.a / 2);
    let to_c = to_b + p.a * (p.b - e);
    walk(p.in_a(), n, runs);
    walk(p.in_b(), to_b, runs);
    walk(p.in_c(), to_c, runs);
}

// How many runs a pane of a whole area has, whose squares are numbered from 0 on.
pub fn count_runs(p: Pane) -> u32
    requires { Walks p 0 0 × Opens p }
    ensures { result ≡ runs_of p }
{
    write_runs(&mut [], p)
}

// The same, and their pairs written, each as far as there is room for it.
#[tactic(auto, using(panes::proofs::Stretches::runs_alike))]
pub fn write_runs(runs: &mut [u32], p: Pane) -> u32
    requires { Walks p 0 0 × Opens p }
    ensures count { result ≡ runs_of p }
    ensures runs { runs.new ≡ pairs_into p runs.old }
{
    let mut taken = Runs::new(runs);
    walk_cut(p, 0, &mut taken);
    taken.count()
}
