ghost use Rattle.std.specs.Prelude.{◌≡◌, IsTrue, Some, option_and_then};
ghost use Rattle.std.specs.Int.{w32, w64};
ghost use Rattle.std.specs.Option.{option_map};
ghost use Rattle.unic_langid_impl.specs.Direction.{direction, language_direction, is_in};
ghost use Rattle.unic_langid_impl.specs.Direction.{is_likely_left_to_right};
ghost use Rattle.unic_langid_impl.specs.Direction.{is_right_to_left_language};
ghost use Rattle.unic_langid_impl.specs.Direction.{left_to_right_scripts, right_to_left_languages};
ghost use Rattle.unic_langid_impl.specs.Direction.{right_to_left_scripts, script_direction};
ghost use Rattle.unic_langid_impl.specs.Direction.{top_to_bottom_scripts};
ghost use Rattle.unic_langid_impl.specs.Likely.{triple_of};
ghost use Rattle.unic_langid_impl.specs.Numbers.{ascends};
ghost use Rattle.unic_langid_impl.specs.Subtags.{raw};

use crate::LanguageIdentifier;
use crate::likelysubtags::{LikelyTables, maximize};
use crate::subtags::{Language, Region, Script};

/// The direction in which a text is written: from right to left, from left to right, from top to
/// bottom.
#[derive(Clone, Copy, Debug, PartialEq, Eq)]
pub enum CharacterDirection {
    RTL,
    LTR,
    TTB,
}

/// The scripts that are written from left to right, as numbers.
const SCRIPTS_LTR: [u32; 16] = [
    1_635_149_124,
    1_635_349_071,
    1_735_288_130,
    1_735_288_404,
    1_768_256_589,
    1_768_513_878,
    1_801_677_903,
    1_819_441_475,
    1_853_120_844,
    1_886_285_128,
    1_936_613_704,
    1_953_390_920,
    1_953_657_668,
    1_970_038_100,
    1_970_435_399,
    2_002_872_403,
];

/// The scripts that are written from right to left.
const SCRIPTS_RTL: [u32; 4] = [1_650_553_409, 1_734_897_490, 1_835_820_097, 1_869_572_942];

/// The scripts that are written from top to bottom.
const SCRIPTS_TTB: [u32; 1] = [1_735_290_701];

/// The languages that are written from right to left.
const LANGUAGES_RTL: [u64; 29] = [
    24_934, 24_936, 24_944, 25_715, 25_960, 26_214, 26_485, 27_001, 28_002, 29_281, 29_301, 29_547,
    29_549, 29_552, 30_308, 31_329, 31_349, 6_450_019, 6_516_833, 6_517_356, 6_776_946, 6_841_459,
    7_102_818, 7_235_426, 7_240_301, 7_303_534, 7_498_611, 7_502_195, 7_828_084,
];

impl LanguageIdentifier {
    /// The direction in which it is written: that of its script, else that of its language and
    /// region.
    pub fn character_direction(&self, tables: &LikelyTables) -> CharacterDirection
        ensures { result ≡ direction tables.now (triple_of self.now) }
    {
        match direction_of_script(self.script) {
            Some(direction) => direction,
            None => direction_of_language(tables, self.language, self.region),
        }
    }
}

/// The direction of a script that is known to have one.
fn direction_of_script(script: Option<Script>) -> Option<CharacterDirection>
    ensures { result ≡ option_and_then script_direction script }
{
    let number = script?.to_raw();
    if is_left_to_right(number) {
        Some(CharacterDirection::LTR)
    } else if is_right_to_left(number) {
        Some(CharacterDirection::RTL)
    } else if is_top_to_bottom(number) {
        Some(CharacterDirection::TTB)
    } else {
        None
    }
}

/// The direction of a language in a region.
fn direction_of_language(
    tables: &LikelyTables,
    language: Language,
    region: Option<Region>,
) -> CharacterDirection
    ensures { result ≡ language_direction tables.now language region }
{
    if is_right_to_left_language(language) && !is_likely_left_to_right(tables, language, region) {
        CharacterDirection::RTL
    } else {
        CharacterDirection::LTR
    }
}

/// Whether the likely script of the language in the region is written from left to right.
fn is_likely_left_to_right(
    tables: &LikelyTables,
    language: Language,
    region: Option<Region>,
) -> bool
    ensures { result ≡ is_likely_left_to_right tables.now language region }
{
    let Some((_, Some(script), _)) = maximize(tables, language, None, region) else {
        return false;
    };
    is_left_to_right(script.to_raw())
}

fn is_right_to_left_language(language: Language) -> bool
    ensures { result ≡ is_right_to_left_language language }
{
    match language.to_raw() {
        Some(number) => is_listed_language(number),
        None => false,
    }
}

#[tactic(auto, unfolding(crate::specs::Direction::right_to_left_languages))]
fn is_listed_language(number: u64) -> bool
    ensures { result ≡ is_in right_to_left_languages number }
{
    contains_u64(&LANGUAGES_RTL, number)
}

#[tactic(auto, unfolding(crate::specs::Direction::left_to_right_scripts))]
fn is_left_to_right(number: u32) -> bool
    ensures { result ≡ is_in left_to_right_scripts number }
{
    contains_u32(&SCRIPTS_LTR, number)
}

#[tactic(auto, unfolding(crate::specs::Direction::right_to_left_scripts))]
fn is_right_to_left(number: u32) -> bool
    ensures { result ≡ is_in right_to_left_scripts number }
{
    contains_u32(&SCRIPTS_RTL, number)
}

#[tactic(auto, unfolding(crate::specs::Direction::top_to_bottom_scripts))]
fn is_top_to_bottom(number: u32) -> bool
    ensures { result ≡ is_in top_to_bottom_scripts number }
{
    contains_u32(&SCRIPTS_TTB, number)
}

/// Whether an ascending list has the number.
fn contains_u32(list: &[u32], number: u32) -> bool
    requires { IsTrue (ascends list.now) }
    ensures { result ≡ is_in list.now number }
{
    list.binary_search(&number).is_ok()
}

/// The same of wider numbers.
fn contains_u64(list: &[u64], number: u64) -> bool
    requires { IsTrue (ascends list.now) }
    ensures { result ≡ is_in list.now number }
{
    list.binary_search(&number).is_ok()
}
