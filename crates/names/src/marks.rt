// Names as marks: one for each variable that an image can have.
ghost use Rattle.std.specs.Prelude.{◌≡◌, [], ◌∷◌, ◌+◌, ◌≤◌, ◌<◌};
ghost use Rattle.rules.specs.Tree.{range};
ghost use Rattle.names.specs.Marks.{most, marked, Marks, Adds, Tells};

// A set of names.
#[derive(Clone, Copy)]
pub struct Names {
    marks: [bool; 1024],
}

impl Names {
    // No name is in it.
    pub fn new() -> Names
        ensures { Marks result [] }
    {
        Names {
            marks: [false; 1024],
        }
    }

    // Whether a name is in it.
    pub fn contains(&self, x: u16) -> bool
        ensures is { result ≡ marked self.now x }
        ensures tells { Tells self.now x result }
    {
        records::get_or(&self.marks, usize::from(x), false)
    }

    // Takes one more name in.
    pub fn insert(&mut self, x: u16)
        ensures { x < most → Adds self.old self.new (x ∷ []) }
    {
        records::put(&mut self.marks, usize::from(x), true);
    }

    // Takes the count names from x on in.
    pub fn insert_range(&mut self, x: u16, count: u16)
        requires { x + count ≤ most }
        ensures { Adds self.old self.new (range x count) }
    {
        for y in x..x + count {
            self.insert(y);
        }
    }
}
