// Whether a field is sound. The reader goes byte by byte, and its state says what may follow.
ghost use Rattle.std.specs.Prelude.{◌≡◌, []};
ghost use Rattle.cuts.specs.Cuts.{QUOTE};
ghost use Rattle.csv_grammar.specs.Grammar.{is_field};
ghost use Rattle.csv_grammar.specs.Reading.{Leads, OnMark, OnText, sound_from};

// Where the reader stands.
#[derive(Clone, Copy, PartialEq, Eq)]
enum State {
    // Before the first byte.
    Start,
    // In a field without quote marks.
    Plain,
    // Between the quote marks.
    Quoted,
    // Behind a quote mark that closes, unless another follows.
    Closed,
    // No byte can make the field sound.
    Broken,
}

impl State {
    // Behind a quote mark: it opens, closes, or is the second of two.
    #[tactic(auto, unfolding(crate::specs::Reading::sound_from, crate::specs::Grammar::is_field, crate::specs::Grammar::is_text))]
    fn on_quote(self) -> State
        ensures { Leads self QUOTE result }
    {
        match self {
            State::Start => State::Quoted,
            State::Plain => State::Broken,
            State::Quoted => State::Closed,
            State::Closed => State::Quoted,
            State::Broken => State::Broken,
        }
    }

    // Behind a comma, a CR or an LF, which stand between quote marks only.
    fn on_mark(self) -> State
        ensures { OnMark self result }
    {
        match self {
            State::Quoted => State::Quoted,
            _ => State::Broken,
        }
    }

    // Behind a byte of TEXTDATA.
    #[tactic(auto, using(crate::proofs::States::text_start, crate::proofs::States::text_plain, crate::proofs::States::text_quoted, crate::proofs::States::text_closed, crate::proofs::States::text_broken))]
    fn on_text(self) -> State
        ensures { OnText self result }
    {
        match self {
            State::Start | State::Plain => State::Plain,
            State::Quoted => State::Quoted,
            State::Closed | State::Broken => State::Broken,
        }
    }

    // Behind any byte.
    fn step(self, b: u8) -> State
        ensures { Leads self b result }
    {
        match b {
            b'"' => self.on_quote(),
            b',' | b'\r' | b'\n' => self.on_mark(),
            0x20..=0x7E => self.on_text(),
            _ => State::Broken,
        }
    }

    // Whether the field may end here.
    #[tactic(auto, unfolding(crate::specs::Reading::sound_from, crate::specs::Grammar::is_field))]
    fn may_end(self) -> bool
        ensures { result ≡ sound_from self [] }
    {
        match self {
            State::Start | State::Plain | State::Closed => true,
            State::Quoted | State::Broken => false,
        }
    }
}

// Whether a field is sound: plain text, or quoted.
#[tactic(auto, unfolding(crate::specs::Reading::sound_from))]
pub fn is_field(field: &[u8]) -> bool
    ensures { result ≡ is_field field.now }
{
    let mut state = State::Start;
    for b in field {
        state = state.step(*b);
    }
    state.may_end()
}
