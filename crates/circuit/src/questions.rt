// The questions that an entry asks, and what a no to one of them is.
ghost use Rattle.std.specs.Prelude.{◌≡◌};
ghost use Rattle.circuit.specs.Verdict.{ask};
ghost use Rattle.circuit.specs.Question.{number_of, verdict_of};

// Each question has its number.
#[derive(Clone, Copy, PartialEq, Eq)]
pub enum Question {
    Parties,
    Party,
    CircuitSize,
    Kind,
    Named,
    Rest,
    Last,
    PrepSize,
    Prep,
    InputCount,
    Inputs,
    ScratchSize,
    Position,
    Half,
    Scratch,
    CoefficientCount,
    Coefficients,
    Room,
    HeardSize,
    Heard,
    Form,
    Depth,
    GateCount,
    Nonce,
    Ranges,
    Change,
    // A question of a caller's own, by its number.
    Own(u32),
}

impl Question {
    pub fn number(self) -> u32
        ensures { result ≡ number_of self }
    {
        match self {
            Question::Parties => 1,
            Question::Party => 2,
            Question::CircuitSize => 3,
            Question::Kind => 4,
            Question::Named => 5,
            Question::Rest => 6,
            Question::Last => 7,
            Question::PrepSize => 8,
            Question::Prep => 9,
            Question::InputCount => 10,
            Question::Inputs => 11,
            Question::ScratchSize => 12,
            Question::Position => 13,
            Question::Half => 14,
            Question::Scratch => 15,
            Question::CoefficientCount => 16,
            Question::Coefficients => 17,
            Question::Room => 18,
            Question::HeardSize => 19,
            Question::Heard => 20,
            Question::Form => 22,
            Question::Depth => 23,
            Question::GateCount => 24,
            Question::Nonce => 25,
            Question::Ranges => 26,
            Question::Change => 27,
            Question::Own(number) => number,
        }
    }
}

// A question that is answered with no, and what of the things asked it is about.
#[derive(Clone, Copy, PartialEq, Eq)]
pub struct Refusal {
    pub question: Question,
    pub index: usize,
}

// One question: yes goes on, no refuses.
#[tactic(auto, unfolding(crate::specs::Verdict::ask))]
pub fn ask(question: Question, index: usize, yes: bool) -> Result<(), Refusal>
    ensures { verdict_of result ≡ ask (number_of question) index yes }
{
    if yes {
        return Ok(());
    }
    Err(Refusal { question, index })
}
