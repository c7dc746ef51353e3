//! The text of all meals of a site, which is made once for the logs of all its forks.
ghost use Rattle.std.specs.Prelude.{◌≡◌, ◌+◌, ◌≤◌, ◌++◌, codes, string_bytes, IfOk, IfSome, IsSome, OnOk};
ghost use Rattle.std.specs.Fmt.{decimal};
ghost use Rattle.dine_token.specs.Periods.{meals_in};
ghost use Rattle.dine_log_text.specs.Logs.{entries_text, separator};

use dine_token::Period;
use std::alloc::{AllocError, Global};
use std::marker::Model;

// The text of a site's meals from the first on, each after a comma. Contracts see the name of the site and the number
// of meals.
#[derive(Drop)]
pub(super) struct MealTexts<'p> {
    name: &'p str,
    text: String,

    // The length of the text of the first k meals, for each k from 0 to the number of meals.
    starts: Vec<usize>,
}

impl<'p> Model for MealTexts<'p> {
    ghost use Rattle.std.specs.Prelude.{◌-◌, length, string_bytes};
    ghost use Rattle.dine_log_text.specs.private.MealTexts.{SeenMealTexts, IsMealTexts};

    ghost Value = { SeenMealTexts };

    ghost view = { λ texts. record { name = texts.name.now; meals = length texts.starts.items - 1 } };

    ghost invariant = { λ texts. IsMealTexts texts.name.now (string_bytes texts.text) texts.starts.items };
}

impl<'p> MealTexts<'p> {
    // Returns the text of `meals` meals of a site with this name.
    pub(super) fn make(
        alloc: Global,
        name: &'p str,
        meals: u32,
    ) -> Result<MealTexts<'p>, AllocError>
        ensures { IfOk result (λ texts. texts ≡ record { name = name.now; meals = meals }) }
    {
        let mut text = String::new(alloc);
        let mut starts = Vec::new(alloc);
        starts.push(0)?;
        for eaten in 0..meals {
            push_meal(&mut text, false, name, eaten + 1)?;
            starts.push(text.len())?;
        }
        Ok(MealTexts { name, text, starts })
    }

    // Returns the entries of the period's meals, or None if the text does not have all of them. `is_first` says whether
    // they are the first entries of their line.
    pub(super) fn of_period(&self, is_first: bool, period: Period) -> Option<&str>
        ensures part { IfSome result (λ part.
            part.now ≡ entries_text (λ site. self.now.name) (separator is_first) (meals_in period)) }
        ensures some { 1 ≤ period.first → period.first + period.count ≤ self.now.meals + 1 → IsSome result }
    {
        if period.count == 0 {
            return Some("");
        }
        let before = (period.first as usize).checked_sub(1)?;
        let eaten = before + period.count as usize;
        if eaten >= self.starts.len() {
            return None;
        }
        let part = &self.text[self.starts[before]..self.starts[eaten]];
        // Before the first entry of a line there is no comma.
        if is_first {
            Some(&part[1..])
        } else {
            Some(part)
        }
    }
}

// Returns the text before an entry.
pub(super) fn separator(is_first: bool) -> &'static str
    ensures { result.now ≡ separator is_first }
{
    if is_first { " " } else { ", " }
}

// Adds meal `k` of the site with this name to the text. `is_first` says whether it is the first entry of its line.
pub(super) fn push_meal(
    text: &mut String,
    is_first: bool,
    name: &str,
    k: u32,
) -> Result<(), AllocError>
    ensures { OnOk result (string_bytes text.new
        ≡ string_bytes text.old ++ (separator is_first ++ (name.now ++ codes "#" ++ decimal k))) }
{
    text.push_str(separator(is_first))?;
    text.push_str(name)?;
    write!(text, "#{k}")
}
