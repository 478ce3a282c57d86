// What stands at the front of a run, and what the rest of a stream begins with.
ghost use Rattle.std.specs.Prelude.{◌≡◌, ◌≤◌, length, IfOk, IfSome};
ghost use Rattle.std.specs.Bool.{OnTrue};
ghost use Rattle.stream.specs.Heads.{Fits, size_of, fitting, next_of};

// What stands there is neither a run nor the stream's end.
#[derive(Clone, Copy, Debug, PartialEq, Eq)]
pub struct BadStream;

// How long the image and the name are, whether the direction is inverse, how many lengths, cells, work words and trace entries there are, and the budget.
#[derive(Clone, Copy)]
pub struct Head {
    pub image: u16,
    pub name: u16,
    pub inverse: bool,
    pub lengths: u16,
    pub cells: u16,
    pub works: u16,
    pub room: u16,
    pub budget: u32,
}

impl Head {
    // How many bytes a run has, with its head.
    pub fn size(&self) -> usize
        ensures { result ≡ size_of self.now }
    {
        22 + usize::from(self.name)
            + usize::from(self.image)
            + usize::from(self.lengths) * 8
            + usize::from(self.cells) * 8
    }

    // Whether a run can be lent what its head asks for. More is let through than document 01 lets a run have, so that its refusals are met.
    // `Fits` is no invariant of a head, and stands in the clauses: a stream can have any.
    #[tactic(auto, unfolding(crate::specs::Heads::fitting))]
    fn fits(&self) -> bool
        ensures same { result ≡ fitting self.now }
        ensures holds { OnTrue result (Fits self.now) }
    {
        self.lengths <= 32 && self.cells <= 4096 && self.works <= 8448 && self.room <= 64
    }
}

// What the rest of a stream begins with: a run, or its end.
#[tactic(auto, unfolding(crate::specs::Heads::next_of))]
pub fn next_of(rest: &[u8]) -> Result<Option<Head>, BadStream>
    ensures same { result ≡ next_of rest.now }
    ensures whole { IfOk result (λ next. IfSome next (λ h. Fits h × (size_of h ≤ length rest.now))) }
{
    let image = records::u16_at(rest, 0);
    if image == 0 {
        if rest.len() == 2 {
            return Ok(None);
        }
        return Err(BadStream);
    }
    let inverse = match records::u16_at(rest, 4) {
        0 => false,
        1 => true,
        _ => return Err(BadStream),
    };
    let Ok(budget) = u32::try_from(records::u64_at(rest, 14)) else {
        return Err(BadStream);
    };
    let head = Head {
        image,
        name: records::u16_at(rest, 2),
        inverse,
        lengths: records::u16_at(rest, 6),
        cells: records::u16_at(rest, 8),
        works: records::u16_at(rest, 10),
        room: records::u16_at(rest, 12),
        budget,
    };
    if head.fits() && head.size() <= rest.len() {
        Ok(Some(head))
    } else {
        Err(BadStream)
    }
}
