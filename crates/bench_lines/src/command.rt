// What a line of input means.
ghost use Rattle.std.specs.Prelude.{◌≡◌, ◌==◌, ◌<◌, IfSome, position};
ghost use Rattle.bench_lines.specs.Command.{space, digit_of, digits_of, decimal_of, fields_of, alone, with_one, with_two, after_number, after_letter, command_of};

#[derive(Clone, Copy)]
pub enum Command {
    Start { tasks: u16 },
    Begin { task: u16, operation: u16 },
    Step { task: u16 },
    Finish { task: u16 },
    Print,
    Unknown,
}

// The number that a digit writes.
fn digit(byte: u8) -> Option<u16>
    ensures value { result ≡ digit_of byte }
    ensures small { IfSome result (λ d. d < 10) }
{
    if !byte.is_ascii_digit() {
        return None;
    }
    Some(u16::from(byte - b'0'))
}

// The number that three digits write.
#[tactic(auto, unfolding(crate::specs::Command::digits_of))]
fn three_digits(hundreds: u8, tens: u8, ones: u8) -> Option<u16>
    ensures { result ≡ digits_of hundreds tens ones }
{
    Some(100 * digit(hundreds)? + 10 * digit(tens)? + digit(ones)?)
}

// The number of one to three digits that a field writes.
fn read_number(field: &[u8]) -> Option<u16>
    ensures { result ≡ decimal_of field.now }
{
    match field {
        [ones] => three_digits(b'0', b'0', *ones),
        [tens, ones] => three_digits(b'0', *tens, *ones),
        [hundreds, tens, ones] => three_digits(*hundreds, *tens, *ones),
        _ => None,
    }
}

// Where the first space stands.
fn first_space(line: &[u8]) -> Option<usize>
    ensures { result ≡ position (λ b. b == space) line.now }
{
    line.iter().position(|byte| *byte == b' ')
}

fn alone(letter: u8) -> Command
    ensures { result ≡ alone letter }
{
    match letter {
        b'm' => Command::Print,
        _ => Command::Unknown,
    }
}

fn with_one(letter: u8, value: Option<u16>) -> Command
    ensures { result ≡ with_one letter value }
{
    let Some(v) = value else {
        return Command::Unknown;
    };
    match letter {
        b'n' => Command::Start { tasks: v },
        b's' => Command::Step { task: v },
        b'd' => Command::Finish { task: v },
        _ => Command::Unknown,
    }
}

fn with_two(letter: u8, first: Option<u16>, second: Option<u16>) -> Command
    ensures { result ≡ with_two letter first second }
{
    match (letter, first, second) {
        (b'b', Some(task), Some(operation)) => Command::Begin { task, operation },
        _ => Command::Unknown,
    }
}

// After a letter and a number: one number more, and nothing else.
#[tactic(auto, using(crate::proofs::Fields::one_field))]
fn after_number(letter: u8, first: Option<u16>, rest: &[u8]) -> Command
    ensures { result ≡ after_number letter first (fields_of rest.now) }
{
    match first_space(rest) {
        None => with_two(letter, first, read_number(rest)),
        Some(_) => Command::Unknown,
    }
}

// After a letter: one number or two.
#[tactic(auto, using(laws::proofs::Lists::to_the_end, crate::proofs::Fields::one_field, crate::proofs::Fields::first_field))]
fn after_letter(letter: u8, rest: &[u8]) -> Command
    ensures { result ≡ after_letter letter (fields_of rest.now) }
{
    match first_space(rest) {
        None => with_one(letter, read_number(rest)),
        Some(end) => after_number(letter, read_number(&rest[..end]), &rest[end + 1..]),
    }
}

// The meaning of a line, which stands without its closing byte 10.
#[tactic(auto, using(crate::proofs::Fields::command_of_empty, crate::proofs::Fields::command_of_none, crate::proofs::Fields::command_of_one))]
pub fn parse(line: &[u8]) -> Command
    ensures { result ≡ command_of line.now }
{
    match line {
        [letter] => alone(*letter),
        [letter, b' ', rest @ ..] => after_letter(*letter, rest),
        _ => Command::Unknown,
    }
}
