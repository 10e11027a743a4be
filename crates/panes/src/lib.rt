// The window as a block of the division sees it, and as the block's parts do; numbers taken up into runs; and the small blocks, which are not cut.
//
// A pane has no start and no direction, as a square in a search: u along the block's run, v along its side.
#![tactic(auto)]

ghost use Rattle.std.specs.Prelude.{ℕ, true, cond, ◌≡◌, ◌≤◌, Some};
ghost use Rattle.terms.specs.Terms.{longest_side};
ghost use Rattle.division.specs.Division.{Part, First, Second, B, C};
ghost use Rattle.panes.specs.Panes.{pane_in, is_whole, none, put, joined, seen};
ghost use Rattle.panes.specs.Panes.{Walks, Leaf, Joins};

// The squares of an a by b block with u from u0 on and below u1, and v from v0 on and below v1.
#[derive(Clone, Copy)]
pub struct Pane {
    pub a: u32,
    pub b: u32,
    pub u0: u32,
    pub u1: u32,
    pub v0: u32,
    pub v1: u32,
}

impl Pane {
    // The pane as each part has it.
    pub fn in_first(self) -> Pane
        requires { (2 ≤ self.a) × (self.a ≤ longest_side) }
        ensures { result ≡ pane_in First self }
    {
        let e = division::even_half(self.a);
        Pane {
            a: e,
            u1: self.u1.min(e),
            ..self
        }
    }

    #[tactic(auto, using(division::proofs::Rules::halves))]
    pub fn in_second(self) -> Pane
        requires { (2 ≤ self.a) × (self.a ≤ longest_side) }
        ensures { result ≡ pane_in Second self }
    {
        let e = division::even_half(self.a);
        Pane {
            a: self.a - e,
            u0: self.u0.saturating_sub(e),
            u1: self.u1.saturating_sub(e),
            ..self
        }
    }

    pub fn in_a(self) -> Pane
        requires { self.b ≤ longest_side }
        ensures { result ≡ pane_in Part.A self }
    {
        let e = division::even_half(self.b);
        let m = self.a / 2;
        Pane {
            a: e,
            b: m,
            u0: self.v0,
            u1: self.v1.min(e),
            v0: self.u0,
            v1: self.u1.min(m),
        }
    }

    #[tactic(auto, using(division::proofs::Rules::halves))]
    pub fn in_b(self) -> Pane
        requires { (2 ≤ self.b) × (self.b ≤ longest_side) }
        ensures { result ≡ pane_in B self }
    {
        let e = division::even_half(self.b);
        Pane {
            b: self.b - e,
            v0: self.v0.saturating_sub(e),
            v1: self.v1.saturating_sub(e),
            ..self
        }
    }

    pub fn in_c(self) -> Pane
        requires { (self.u1 ≤ self.a) × (self.b ≤ longest_side) }
        ensures { result ≡ pane_in C self }
    {
        let e = division::even_half(self.b);
        let n = self.a - self.a / 2;
        Pane {
            a: e,
            b: n,
            u0: e.saturating_sub(self.v1),
            u1: e.saturating_sub(self.v0),
            v0: self.a - self.u1,
            v1: self.a.saturating_sub(self.u0).min(n),
        }
    }

    // Whether a pane is its whole block.
    pub fn is_whole(self) -> bool
        ensures { result ≡ is_whole self }
    {
        self.u0 == 0 && self.v0 == 0 && self.u1 == self.a && self.v1 == self.b
    }
}

// Numbers taken up into runs: how many runs there are so far, the number behind the last, and their pairs in a slice, each as far as it has room. So runs are
// counted by taking them up into an empty one.
#[derive(Drop)]
pub struct Runs<'a> {
    pairs: &'a mut [u32],
    count: u32,
    behind: Option<u32>,
    // A last run is there if there is a number behind it.
    ghost begun: { (end : ℕ) → behind ≡ Some end → 1 ≤ count },
}

impl<'a> Runs<'a> {
    ghost use Rattle.panes.specs.Told.{told};

    pub fn new(pairs: &'a mut [u32]) -> Runs<'a>
        ensures told { told result ≡ none pairs.old }
        ensures same_slice { result.pairs.ghost_name ≡ pairs.entry.ghost_name }
    {
        Runs {
            pairs,
            count: 0,
            behind: None,
        }
    }

    pub fn count(&self) -> u32
        ensures { result ≡ self.now.count }
    {
        self.count
    }

    // Writes a number of a pair, if its place is there. By the index: what is left behind `get_mut` of a field is not known where there is a ghost field too.
    #[tactic(auto, using(std::proofs::lemmas::List::set_past))]
    fn put(&mut self, at: usize, number: u32)
        ensures told { told self.new ≡ put (told self.old) at number }
        ensures same_slice { self.new.pairs.ghost_name ≡ self.old.pairs.ghost_name }
    {
        if at < self.pairs.len() {
            self.pairs[at] = number;
        }
    }

    // Takes up the numbers from `from` on and below `to`: they lengthen the last run where they follow it, and are a new run where they do not.
    pub fn join(&mut self, from: u32, to: u32)
        requires { Joins self.old.count from to }
        ensures told { told self.new ≡ joined (told self.old) from to }
        ensures same_slice { self.new.pairs.ghost_name ≡ self.old.pairs.ghost_name }
    {
        if self.behind != Some(from) {
            self.put(2 * self.count as usize, from);
            self.count += 1;
        }
        self.put(2 * self.count as usize - 1, to - 1);
        self.behind = Some(to);
    }

    // The same, if they are seen.
    fn join_if(&mut self, seen: bool, from: u32, to: u32)
        requires { seen ≡ true → Joins self.old.count from to }
        ensures told { told self.new ≡ cond seen (joined (told self.old) from to) (told self.old) }
        ensures same_slice { self.new.pairs.ghost_name ≡ self.old.pairs.ghost_name }
    {
        if seen {
            self.join(from, to);
        }
    }

    // Takes up a pane of a block 2 wide and 2 or 3 deep, whose squares go up its side and down again: most of a window's border lies in one.
    pub fn join_leaf(&mut self, p: Pane, n: u32)
        requires { Walks p n self.old.count × Leaf p n }
        ensures told { told self.new ≡ seen p (told self.old) n }
        ensures same_slice { self.new.pairs.ghost_name ≡ self.old.pairs.ghost_name }
    {
        self.join_if(p.u0 == 0, n + p.v0, n + p.v1);
        self.join_if(p.u1 == 2, n + (2 * p.b - p.v1), n + (2 * p.b - p.v0));
    }
}
