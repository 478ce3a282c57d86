// Why an image or a run is refused: a rule of the two tables, and the place that it names.
ghost use Rattle.std.specs.Prelude.{◌≡◌};
ghost use Rattle.rules.specs.Form.{given};
ghost use Rattle.records.specs.Refusals.{number_of, as_verdict};

// The rules of both tables, in their order: 1 to 13 of an image, 19 to 28 of a run.
#[derive(Clone, Copy, Debug, PartialEq, Eq)]
pub enum Rule {
    Format = 1,
    Layout = 2,
    ProcedureRecord = 3,
    VariableRecord = 4,
    NodeRecord = 5,
    Tree = 6,
    Scope = 7,
    Undeclared = 8,
    Kind = 9,
    Secrecy = 10,
    Clash = 11,
    Mismatch = 12,
    Slow = 13,
    Work = 19,
    Lengths = 20,
    WideCell = 21,
    Room = 22,
    Budget = 23,
    Index = 24,
    ZeroDivisor = 25,
    PublicLeft = 26,
    SecretLeft = 27,
    LoopBack = 28,
}

// A broken rule and the place where it is broken: "a number and a place".
#[derive(Clone, Copy, Debug, PartialEq, Eq)]
pub struct Refusal {
    pub rule: Rule,
    pub place: u16,
}

// "Answer: a number and a place, 0 and 0 when accepted."
pub type Verdict = Result<(), Refusal>;

impl Rule {
    // The number that the tables give the rule: `as` reads the one that stands at it.
    pub fn number(self) -> u16
        ensures { result ≡ number_of self }
    {
        self as u16
    }

    // The refusal by this rule at this place.
    pub fn at(self, place: u16) -> Refusal
        ensures { result ≡ record { rule = self; place = place } }
    {
        Refusal { rule: self, place }
    }

    // The verdict on one rule: refused "exactly when" it is broken.
    #[tactic(auto, unfolding(rules::specs::Form::given))]
    pub fn given(self, place: u16, broken: bool) -> Verdict
        ensures { as_verdict result ≡ given (number_of self) place broken }
    {
        if broken { Err(self.at(place)) } else { Ok(()) }
    }
}

// The answer's two numbers: 0 and 0 when accepted.
pub fn numbers(verdict: Verdict) -> (u16, u16)
    ensures { (result.0 ≡ (as_verdict verdict).number) × (result.1 ≡ (as_verdict verdict).place) }
{
    match verdict {
        Ok(()) => (0, 0),
        Err(refusal) => (refusal.rule.number(), refusal.place),
    }
}
