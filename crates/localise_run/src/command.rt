ghost use Rattle.std.specs.Prelude.{◌≡◌, MatchOption, codes};
ghost use Rattle.localise_run.specs.Commands.{AreNoCommand, IsCommand, IsNumber};

/// What a run does with a document.
#[derive(Clone, Copy, Debug, PartialEq, Eq)]
pub enum Command {
    /// Writes a localised line for each request.
    Render,
    /// Writes the locales of each request's walk.
    Walk,
    /// Makes so many requests from the document's, and writes three numbers of their lines.
    Generate(u32),
}

impl Command {
    /// The command that words are. It takes no memory.
    pub fn of_words(words: &[String]) -> Option<Command>
        ensures { MatchOption result (AreNoCommand words.now) (IsCommand words.now) }
    {
        match words {
            [word] if word.as_str() == "render" => Some(Command::Render),
            [word] if word.as_str() == "walk" => Some(Command::Walk),
            [word, digits] if word.as_str() == "generate" => {
                Some(Command::Generate(number_of(digits.as_str())?))
            }
            _ => None,
        }
    }
}

/// The most requests that are made.
const MOST: u32 = 1_000_000;

/// The number of one to seven digits, from 1 to the most.
fn number_of(digits: &str) -> Option<u32>
    ensures { MatchOption result ((n : _) → ¬ (IsNumber digits.now n)) (IsNumber digits.now) }
{
    if digits.len() > 7 || digits.starts_with("+") {
        return None;
    }
    let number = digits.parse::<u32>().ok()?;
    if 1 <= number && number <= MOST {
        Some(number)
    } else {
        None
    }
}
