ghost use Rattle.app_config.specs.Entries.{AreOperands};
ghost use Rattle.app_config.specs.Text.{words};

use crate::text::next_word;

/// The words behind the one that begins a line.
#[derive(Clone, Copy)]
pub(crate) enum Operands<'a> {
    None,
    One(&'a [u8]),
    Two(&'a [u8], &'a [u8]),
    More,
}

pub(crate) fn operands_of(text: &[u8]) -> Operands<'_>
    ensures { AreOperands result (words text.now) }
{
    let Some((first, behind_first)) = next_word(text) else {
        return Operands::None;
    };
    let Some((second, behind_second)) = next_word(behind_first) else {
        return Operands::One(first);
    };
    match next_word(behind_second) {
        None => Operands::Two(first, second),
        Some(_) => Operands::More,
    }
}
