//! What an edit sets.
ghost use Rattle.std.specs.Prelude.{◌≡◌, ◌≢◌, Some, MatchResult, codes};
ghost use Rattle.words.specs.Settings.{code, name, unit};

use std::error::Error;
use std::fmt;
use std::str::FromStr;

/// What a recipe edit sets at one stage of one deck.
#[derive(Clone, Copy, Debug, PartialEq, Eq)]
pub enum Setting {
    /// °C
    TopHeat = 1,
    /// °C
    BottomHeat = 2,
    /// milliseconds
    Steam = 3,
    /// percent open
    Damper = 4,
    /// seconds
    StageTime = 5,
}

/// No setting has this code or name.
#[derive(Clone, Copy, Debug, PartialEq, Eq)]
pub struct UnknownSetting;

/// The number that stands for the setting in an edit's word.
impl From<Setting> for u8 {
    ghost from_gives = { λ s n. n ≡ code s };

    fn from(setting: Setting) -> u8 {
        setting as u8
    }
}

/// The setting with this code.
impl TryFrom<u8> for Setting {
    type Error = UnknownSetting;

    ghost try_from_gives = { λ n r. MatchResult r (λ s. code s ≡ n) (λ _. (s : _) → code s ≢ n) };

    fn try_from(n: u8) -> Result<Setting, UnknownSetting> {
        match n {
            1 => Ok(Setting::TopHeat),
            2 => Ok(Setting::BottomHeat),
            3 => Ok(Setting::Steam),
            4 => Ok(Setting::Damper),
            5 => Ok(Setting::StageTime),
            _ => Err(UnknownSetting),
        }
    }
}

/// The setting of this name.
impl FromStr for Setting {
    type Err = UnknownSetting;

    ghost from_str_gives = { λ text r. MatchResult r (λ s. name s ≡ text) (λ _. (s : _) → name s ≢ text) };

    fn from_str(text: &str) -> Result<Setting, UnknownSetting> {
        match text {
            "top-heat" => Ok(Setting::TopHeat),
            "bottom-heat" => Ok(Setting::BottomHeat),
            "steam" => Ok(Setting::Steam),
            "damper" => Ok(Setting::Damper),
            "stage-time" => Ok(Setting::StageTime),
            _ => Err(UnknownSetting),
        }
    }
}

impl Setting {
    /// The name that stands for the setting in text.
    pub fn name(self) -> &'static str
        ensures { result.now ≡ name self }
    {
        match self {
            Setting::TopHeat => "top-heat",
            Setting::BottomHeat => "bottom-heat",
            Setting::Steam => "steam",
            Setting::Damper => "damper",
            Setting::StageTime => "stage-time",
        }
    }

    /// What its values are counted in.
    pub fn unit(self) -> &'static str
        ensures { result.now ≡ unit self }
    {
        match self {
            Setting::TopHeat | Setting::BottomHeat => "°C",
            Setting::Steam => "ms",
            Setting::Damper => "%",
            Setting::StageTime => "s",
        }
    }
}

impl fmt::Display for Setting {
    ghost output = { λ s. Some (name s) };

    fn fmt<W: fmt::Write>(&self, f: &mut fmt::Formatter<W>) -> fmt::Result {
        f.write_str(self.name())
    }
}

impl fmt::Display for UnknownSetting {
    ghost output = { λ _. Some (codes "no such setting") };

    fn fmt<W: fmt::Write>(&self, f: &mut fmt::Formatter<W>) -> fmt::Result {
        f.write_str("no such setting")
    }
}

impl Error for UnknownSetting {}
