//! What a line may say beside a room.

ghost use Rattle.std.specs.Prelude.{◌≡◌, [], is_ok, false, IfOk};
ghost use Rattle.srm_rooms.specs.RoomLines as spec;
ghost use Rattle.srm_rooms.specs.RoomLines.{texts};

use srm_options::RoomMistake;

/// Refuses words that say what the room says: an option that holds for all members, or an address.
pub fn find_shared<'a>(own: &[&'a str]) -> Result<(), RoomMistake<'a>>
    ensures { is_ok result ≡ spec.are_own false (texts own.now) }
{
    let mut awaits = false;
    for word in own {
        awaits = judge_next(awaits, word)?;
    }
    Ok(())
}

// Returns whether a word awaits a value behind it. Refuses one that may not stand there: if the word before doesn't await it, it is an option.
fn judge_next(awaits: bool, word: &str) -> Result<bool, RoomMistake<'_>>
    ensures fine { is_ok result ≡ spec.may_follow awaits word.now }
    ensures next { IfOk result (λ next. next ≡ spec.awaits_behind awaits word.now) }
{
    if awaits {
        return Ok(false);
    }
    judge(word)?;
    Ok(is_valued(word))
}

fn judge(word: &str) -> Result<(), RoomMistake<'_>>
    ensures { is_ok result ≡ spec.is_own word.now }
{
    if is_shared(word) {
        Err(RoomMistake::Shared(word))
    } else if begins_as_option(word) {
        Ok(())
    } else {
        Err(RoomMistake::Address(word))
    }
}

fn begins_as_option(word: &str) -> bool
    ensures { result ≡ spec.begins_as_option word.now }
{
    match word.as_bytes() {
        [] => false,
        [first, ..] => *first == b'-',
    }
}

// Whether a word is an option that says what the room says for all members.
fn is_shared(word: &str) -> bool
    ensures { result ≡ spec.is_shared word.now }
{
    is_option(word, "--session")
        || is_option(word, "--waits")
        || is_option(word, "--least-distance")
        || is_option(word, "--key")
}

// Whether a word is an option whose value stands behind it.
fn is_valued(word: &str) -> bool
    ensures { result ≡ spec.is_valued word.now }
{
    word == "--start"
        || word == "--stay"
        || word == "--turns"
        || word == "--rate"
        || word == "--depth"
        || word == "--linger"
        || word == "--most-missing"
        || word == "--record"
        || word == "--http"
        || word == "--me"
        || word == "--room"
}

/// Returns whether one of these words is the option, or the option with its value behind `=`.
pub fn says(own: &[&str], option: &str) -> bool
    ensures { result ≡ spec.says (texts own.now) option.now }
{
    for word in own {
        if is_option(word, option) {
            return true;
        }
    }
    false
}

fn is_option(word: &str, option: &str) -> bool
    ensures { result ≡ spec.is_option word.now option.now }
{
    begins(word.as_bytes(), option.as_bytes())
}

fn begins(word: &[u8], option: &[u8]) -> bool
    ensures { result ≡ spec.is_option word.now option.now }
{
    match option {
        [] => is_ended(word),
        [wanted, option @ ..] => match word {
            [] => false,
            [first, word @ ..] => *first == *wanted && begins(word, option),
        },
    }
}

fn is_ended(word: &[u8]) -> bool
    ensures { result ≡ spec.is_option word.now [] }
{
    match word {
        [] => true,
        [next, ..] => *next == b'=',
    }
}
