ghost use Rattle.std.specs.Prelude.{◌≡◌, IfOk, MatchOption};
ghost use Rattle.app_config.specs.Inflections.{IsLastFor, LacksBase};
ghost use Rattle.app_config.specs.Indexes.Places.{AreLastPlaces};

use crate::config::{ConfigText, TextPairs};
use std::alloc::{AllocError, Global};
use std::collections::BTreeMap;
use std::marker::Model;

/// The `inflect` lines of a configuration, looked up by their bases. Contracts see it as the lines.
#[derive(Drop)]
pub struct Inflections<'a> {
    pairs: &'a TextPairs,
    /// The place of the last line of each base.
    places: BTreeMap<&'a [u8], usize>,
}

impl<'a> Model for Inflections<'a> {
    ghost use Rattle.std.specs.Prelude.{List, ℕ};

    ghost Value = { List (List ℕ × List ℕ) };

    ghost use Rattle.app_config.specs.Indexes.Places.{AreLastPlaces};

    ghost view = { λ i. i.pairs.now };

    ghost invariant = { λ i. AreLastPlaces i.pairs.now i.places };
}

impl<'a> Inflections<'a> {
    /// The look-up of these lines.
    pub fn new(alloc: Global, pairs: &'a TextPairs) -> Result<Inflections<'a>, AllocError>
        ensures { IfOk result (λ inflections. inflections ≡ pairs.now) }
    {
        let places = last_places(alloc, pairs.as_slice())?;
        Ok(Inflections { pairs, places })
    }

    /// What a base name is camelized to: the constant of the last line that has the base.
    pub fn constant_of(&self, base: &[u8]) -> Option<&ConfigText>
        ensures { MatchOption result (LacksBase self.now base.now)
            (λ constant. IsLastFor self.now base.now constant.now) }
    {
        match self.places.get(base) {
            None => None,
            Some(place) => Some(&self.pairs.at(*place).1),
        }
    }
}

/// The place of the last line of each base.
fn last_places<'a>(
    alloc: Global,
    pairs: &'a [(ConfigText, ConfigText)],
) -> Result<BTreeMap<&'a [u8], usize>, AllocError>
    ensures { IfOk result (AreLastPlaces pairs.now) }
{
    let mut places = BTreeMap::new(alloc);
    'pairs: for (place, pair) in pairs.iter().enumerate() {
        places.insert(pair.0.as_bytes(), place)?;
    }
    Ok(places)
}
