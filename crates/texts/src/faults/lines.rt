//! The line of a number.

ghost use Rattle.std.specs.Prelude.{◌≡◌, ◌-◌, option_map, slice_get};
ghost use Rattle.script_cli.specs.Lines.{lines};

use script_cli::split_line;

/// The line of this number, from 1; nothing where a text has fewer.
#[tactic(auto, using(script_cli::proofs::Texts::lines_are_cut))]
pub fn line_at(text: &[u8], number: u32) -> Option<&[u8]>
    ensures { option_map (λ line. line.now) result ≡ slice_get (lines text.now) (number - 1) }
{
    let mut rest = text;
    let mut left = number;
    while left > 1 {
        if rest.is_empty() {
            return None;
        }
        let (_, after) = split_line(rest);
        rest = after;
        left -= 1;
    }
    if rest.is_empty() {
        return None;
    }
    let (line, _) = split_line(rest);
    Some(line)
}
