// The words of a line, and the lines of a text.
ghost use Rattle.std.specs.Prelude.{◌≡◌, ◌<◌, [], ◌∷◌, length, IfSome, Some, None, MatchOption};
ghost use Rattle.script.specs.Words.{words, unreturned, lines};

// The first word of a line with what follows it, or None if there is none.
pub(crate) fn next_word(text: &str) -> Option<(&str, &str)>
    ensures words { MatchOption result (words text.now ≡ []) (λ p. words text.now ≡ p.0.now ∷ words p.1.now) }
    ensures shorter { IfSome result (λ p. length p.1.now < length text.now) }
{
    let text = text.trim_start_matches(' ');
    if text.is_empty() {
        return None;
    }
    Some(text.split_once(' ').unwrap_or((text, "")))
}

// The first line of a text, without its end, with what follows; no more follows the last line.
pub fn next_line(text: &str) -> (&str, Option<&str>)
    ensures { lines text.now ≡ result.0.now ∷ elim result.1 [ None ↦ [] | Some rest ↦ lines rest.now ] }
{
    match text.split_once('\n') {
        None => (without_return(text), None),
        Some((line, rest)) => (without_return(line), Some(rest)),
    }
}

// a line without the carriage return at its end
fn without_return(line: &str) -> &str
    ensures { result.now ≡ unreturned line.now }
{
    line.strip_suffix('\r').unwrap_or(line)
}
