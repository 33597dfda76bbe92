// One pass over a version's text, piece by piece.
ghost use Rattle.std.specs.Prelude.{◌≡◌, ◌+◌, ◌*◌, ◌<◌, ◌≤◌, false, get_or, length, min, take, IfErr, IfOk, IsTrue, OnErr};
ghost use Rattle.std.specs.Char.{is_ascii_digit};
ghost use Rattle.std.specs.List.{list_all};
ghost use Rattle.std.specs.Str.Parse.{digits_value};
ghost use Rattle.nuget_version.specs.Parts.{is_part_byte};
ghost use Rattle.nuget_version.specs.Grammar.{IsLongestFront, IsMadeOf, IsVersionText, Pieces};
ghost use Rattle.nuget_version.specs.Walk.{found_of, after_dot, after_plus, is_number_stage, is_piece_byte, next_in_number, next_in_part, next_of, nothing_found, place, too_big_of, with_mark, with_number, with_piece};

// The first value above the limit of a number.
const TOO_BIG: u32 = 2147483648;

// What the next byte may belong to.
#[derive(Clone, Copy, Debug, PartialEq, Eq)]
pub(crate) enum Stage {
    Major,
    Minor,
    Patch,
    Revision,
    Labels,
    Meta,
}

impl Stage {
    fn is_number(self) -> bool
        ensures { result ≡ is_number_stage self }
    {
        !matches!(self, Stage::Labels | Stage::Meta)
    }

    fn after_dot(self) -> Option<Place>
        ensures { result ≡ after_dot self }
    {
        match self {
            Stage::Major => Some(Place::start_of(Stage::Minor)),
            Stage::Minor => Some(Place::start_of(Stage::Patch)),
            Stage::Patch => Some(Place::start_of(Stage::Revision)),
            Stage::Revision | Stage::Labels | Stage::Meta => None,
        }
    }

    fn after_plus(self) -> Option<Place>
        ensures { result ≡ after_plus self }
    {
        match self {
            Stage::Labels => Some(Place::start_of(Stage::Meta)),
            _ => None,
        }
    }
}

fn is_part_byte(byte: u8) -> bool
    ensures { result ≡ is_part_byte byte }
{
    matches!(byte, b'0'..=b'9' | b'A'..=b'Z' | b'a'..=b'z' | b'-')
}

// A place in a text. `begun` says that a byte of the number or part was read.
#[derive(Clone, Copy, Debug)]
pub(crate) struct Place {
    pub(crate) stage: Stage,
    pub(crate) begun: bool,
}

impl Place {
    fn start_of(stage: Stage) -> Place
        ensures { result ≡ place stage false }
    {
        Place {
            stage,
            begun: false,
        }
    }

    // The place behind a byte, and nothing where no version text goes on with it.
    #[tactic(auto, unfolding(crate::specs::Walk::next_of))]
    pub(crate) fn next(self, byte: u8) -> Option<Place>
        ensures { result ≡ next_of self.stage self.begun byte }
    {
        if self.stage.is_number() {
            self.next_in_number(byte)
        } else {
            self.next_in_part(byte)
        }
    }

    fn next_in_number(self, byte: u8) -> Option<Place>
        ensures { result ≡ next_in_number self.stage self.begun byte }
    {
        if byte.is_ascii_digit() {
            return Some(Place {
                stage: self.stage,
                begun: true,
            });
        }
        if !self.begun {
            return None;
        }
        match byte {
            b'.' => self.stage.after_dot(),
            b'-' => Some(Place::start_of(Stage::Labels)),
            b'+' => Some(Place::start_of(Stage::Meta)),
            _ => None,
        }
    }

    fn next_in_part(self, byte: u8) -> Option<Place>
        ensures { result ≡ next_in_part self.stage self.begun byte }
    {
        if is_part_byte(byte) {
            return Some(Place {
                stage: self.stage,
                begun: true,
            });
        }
        if !self.begun {
            return None;
        }
        match byte {
            b'.' => Some(Place::start_of(self.stage)),
            b'+' => self.stage.after_plus(),
            _ => None,
        }
    }
}

// A number that was read: its value, at most `TOO_BIG`, and the place of its first digit.
#[derive(Clone, Copy, Debug)]
pub(crate) struct Number {
    pub(crate) value: u32,
    pub(crate) at: usize,
}

// The digits that a text begins with: their value, at most `TOO_BIG`, and how many they are.
fn digits(text: &[u8]) -> (u32, usize)
    ensures within { result.1 ≤ length text.now }
    ensures bytes { IsTrue (list_all is_ascii_digit (take result.1 text.now)) }
    ensures stops { result.1 < length text.now → is_ascii_digit (get_or text.now result.1 0) ≡ false }
    ensures value { result.0 ≡ min (digits_value 10 (take result.1 text.now)) 2147483648 }
{
    let mut value: u32 = 0;
    for at in 0..text.len() {
        let byte = text[at];
        if !byte.is_ascii_digit() {
            return (value, at);
        }
        value = with_digit(value, byte - b'0');
    }
    (value, text.len())
}

// The value with one digit more, at most `TOO_BIG`.
fn with_digit(value: u32, digit: u8) -> u32
    ensures { result ≡ min (value * 10 + digit) 2147483648 }
{
    let more = u64::from(value) * 10 + u64::from(digit);
    more.min(u64::from(TOO_BIG)) as u32
}

// How many bytes of a part a text begins with.
fn part_len(text: &[u8]) -> usize
    ensures within { result ≤ length text.now }
    ensures bytes { IsTrue (list_all is_part_byte (take result text.now)) }
    ensures stops { result < length text.now → is_part_byte (get_or text.now result 0) ≡ false }
{
    for at in 0..text.len() {
        if !is_part_byte(text[at]) {
            return at;
        }
    }
    text.len()
}

// What was found in a text: its numbers, 0 where they are missing, and the places of the marks.
#[derive(Clone, Copy, Debug)]
pub(crate) struct Found {
    pub(crate) major: Number,
    pub(crate) minor: Number,
    pub(crate) patch: Number,
    pub(crate) revision: Number,
    pub(crate) dash: Option<usize>,
    pub(crate) plus: Option<usize>,
}

impl Found {
    fn nothing() -> Found
        ensures { result ≡ nothing_found }
    {
        let zero = Number { value: 0, at: 0 };
        Found {
            major: zero,
            minor: zero,
            patch: zero,
            revision: zero,
            dash: None,
            plus: None,
        }
    }

    fn set_number(&mut self, stage: Stage, number: Number)
        ensures { self.new ≡ with_number stage number self.old }
    {
        match stage {
            Stage::Major => self.major = number,
            Stage::Minor => self.minor = number,
            Stage::Patch => self.patch = number,
            Stage::Revision => self.revision = number,
            Stage::Labels | Stage::Meta => {}
        }
    }

    // Reads what a text has of the piece that begins here, and answers how many bytes it is.
    fn read_piece(&mut self, stage: Stage, at: usize, text: &[u8]) -> usize
        ensures within { result ≤ length text.now }
        ensures bytes { IsTrue (list_all (is_piece_byte stage) (take result text.now)) }
        ensures stops { result < length text.now → is_piece_byte stage (get_or text.now result 0) ≡ false }
        ensures found { self.new ≡ with_piece stage at (take result text.now) self.old }
    {
        if !stage.is_number() {
            return part_len(text);
        }
        let (value, len) = digits(text);
        if len > 0 {
            self.set_number(stage, Number { value, at });
        }
        len
    }

    // Where the first number above the limit begins.
    pub(crate) fn too_big(&self) -> Option<usize>
        ensures { result ≡ too_big_of self.now }
    {
        if self.major.value >= TOO_BIG {
            Some(self.major.at)
        } else if self.minor.value >= TOO_BIG {
            Some(self.minor.at)
        } else if self.patch.value >= TOO_BIG {
            Some(self.patch.at)
        } else if self.revision.value >= TOO_BIG {
            Some(self.revision.at)
        } else {
            None
        }
    }

    // Notes the place of a dash behind a number, and of a plus.
    fn note_mark(&mut self, stage: Stage, at: usize, byte: u8)
        ensures { self.new ≡ with_mark stage at byte self.old }
    {
        if byte == b'-' && stage.is_number() {
            self.dash = Some(at);
        } else if byte == b'+' {
            self.plus = Some(at);
        }
    }
}

// What the pieces of a text are, or else the length of its longest prefix that begins some version
// text.
pub(crate) fn walk(text: &[u8]) -> Result<Found, usize>
    ensures found { IfOk result (λ f. (p : Pieces) × IsMadeOf text.now p × (f ≡ found_of p)) }
    ensures not_version { OnErr result (IsVersionText text.now → ⊥) }
    ensures place { IfErr result (λ at. IsLongestFront text.now at) }
{
    let mut found = Found::nothing();
    let mut stage = Stage::Major;
    let mut at = 0;
    loop {
        let len = found.read_piece(stage, at, &text[at..]);
        let begun = len > 0;
        at += len;
        if at == text.len() {
            return if begun { Ok(found) } else { Err(at) };
        }
        let byte = text[at];
        let Some(next) = (Place { stage, begun }).next(byte) else {
            return Err(at);
        };
        found.note_mark(stage, at, byte);
        stage = next.stage;
        at += 1;
    }
}
