//! The forms that the texts of a bill have.
ghost use Rattle.std.specs.Prelude.{◌≡◌, ◌+◌, ◌-◌, ◌*◌, ◌<◌, ◌^◌, get_or};
ghost use Rattle.std.specs.List.{list_all};
ghost use Rattle.check_bill.specs.Bills as spec;
ghost use Rattle.check_bill.specs.Bills.{is_in_line, is_visible};

/// What a text of a bill has to be.
#[derive(Clone, Copy, Debug, PartialEq, Eq)]
pub enum TextForm {
    /// One or more characters from `!` to `~`.
    Word,
    /// A moment such as `2024-05-01T12:00:00Z`.
    Moment,
    /// Not empty, with no LF and no CR.
    Line,
}

fn is_visible(byte: u8) -> bool
    ensures { result ≡ spec.is_visible byte }
{
    33 <= byte && byte <= 126
}

fn are_visible(bytes: &[u8]) -> bool
    ensures { result ≡ list_all is_visible bytes.now }
{
    bytes.iter().all(|byte| is_visible(*byte))
}

fn is_word(text: &[u8]) -> bool
    ensures { result ≡ spec.is_word text.now }
{
    !text.is_empty() && are_visible(text)
}

fn is_in_line(byte: u8) -> bool
    ensures { result ≡ spec.is_in_line byte }
{
    byte != b'\n' && byte != b'\r'
}

fn are_in_line(bytes: &[u8]) -> bool
    ensures { result ≡ list_all is_in_line bytes.now }
{
    bytes.iter().all(|byte| is_in_line(*byte))
}

fn is_line(text: &[u8]) -> bool
    ensures { result ≡ spec.is_line text.now }
{
    !text.is_empty() && are_in_line(text)
}

/// Whether a byte may stand where a form has another.
fn stands_for(form: u8, byte: u8) -> bool
    ensures { result ≡ spec.stands_for form byte }
{
    if form == b'd' {
        byte.is_ascii_digit()
    } else {
        byte == form
    }
}

/// Whether a text is written as a form: `d` is any digit, each other character itself.
fn has_form(form: &[u8], text: &[u8]) -> bool
    ensures { result ≡ spec.has_form form.now text.now }
{
    let mut forms = form;
    let mut rest = text;
    'forms: while let Some((one, next)) = forms.split_first() {
        let Some((byte, behind)) = rest.split_first() else {
            return false;
        };
        if !stands_for(*one, *byte) {
            return false;
        }
        forms = next;
        rest = behind;
    }
    rest.is_empty()
}

/// The digit at a place.
fn digit_at(text: &[u8], place: usize) -> usize
    ensures digit { result ≡ get_or text.now place 0 - 48 }
    ensures small { result < 256 }
{
    match text.get(place) {
        Some(byte) => usize::from(byte.saturating_sub(48)),
        None => 0,
    }
}

/// The number that the two digits from a place on are.
fn two_digits(place: usize, text: &[u8]) -> usize
    requires { place + 1 < 2 ^ 64 }
    ensures { result ≡ spec.two_digits place text.now }
{
    digit_at(text, place) * 10 + digit_at(text, place + 1)
}

fn lies_in(low: usize, high: usize, number: usize) -> bool
    ensures { result ≡ spec.lies_in low high number }
{
    low <= number && number <= high
}

/// Whether the month and the day of a moment are in their ranges.
fn has_day(text: &[u8]) -> bool
    ensures { result ≡ spec.has_day text.now }
{
    lies_in(1, 12, two_digits(5, text)) && lies_in(1, 31, two_digits(8, text))
}

/// Whether the hour, the minute and the second of a moment are in their ranges.
fn has_time(text: &[u8]) -> bool
    ensures { result ≡ spec.has_time text.now }
{
    lies_in(0, 23, two_digits(11, text))
        && lies_in(0, 59, two_digits(14, text))
        && lies_in(0, 59, two_digits(17, text))
}

fn is_moment(text: &[u8]) -> bool
    ensures { result ≡ spec.is_moment text.now }
{
    has_form(b"dddd-dd-ddTdd:dd:ddZ", text) && has_day(text) && has_time(text)
}

impl TextForm {
    /// Whether a text has this form.
    pub fn is_of(self, text: &str) -> bool
        ensures { result ≡ spec.is_of self text.now }
    {
        let text = text.as_bytes();
        match self {
            TextForm::Word => is_word(text),
            TextForm::Moment => is_moment(text),
            TextForm::Line => is_line(text),
        }
    }
}
