//! A meal of a site, with all its forks.
ghost use Rattle.std.specs.Prelude.{◌≡◌, ◌<◌, ◌^◌, All, Some, length, map, slice_get, vec_len};
ghost use Rattle.dine_token.specs.Fork.{IsDirty, MayEat, after_meal};
ghost use Rattle.dine_token.specs.Values.{IsAct};

use crate::act::Act;
use crate::fork::Fork;
use crate::held::Held;
use std::marker::Model;

/// All forks of a site while it eats. It cannot be dropped: it is ended by [`Meal::end`].
pub struct Meal {
    site: u32,
    k: u32,
    hands: Vec<Held>,
}

impl Model for Meal {
    ghost use Rattle.dine_token.specs.Meal.{SeenMeal};

    ghost Value = { SeenMeal };

    ghost view = { λ meal. record { site = meal.site; k = meal.k; forks = meal.hands.items } };

    ghost use Rattle.dine_token.specs.private.MealFields.{IsWellServed};

    ghost invariant = { IsWellServed };
}

impl Meal {
    /// Begins meal `k` of the site, from 1: writes it into each fork, and does its act to the value of each. Each fork
    /// must be at the site and have `k - 1` meals of the site, `k` is at most the meals due to the site, and the amount
    /// of the act is at most 1,000,000. It allocates nothing.
    pub fn begin(site: u32, k: u32, act: Act, hands: Vec<Held>) -> Meal
        requires may_eat { All (MayEat site k) hands.items }
        requires act { IsAct act }
        requires countable { vec_len hands < 2 ^ 32 }
        ensures site { result.site ≡ site }
        ensures k { result.k ≡ k }
        ensures forks { result.forks ≡ map (after_meal site k act) hands.items }
    {
        let mut hands = hands;
        for hand in hands.iter_mut() {
            hand.eat(site, k, act);
        }
        Meal { site, k, hands }
    }

    /// Returns the site that eats.
    pub fn site(&self) -> u32
        ensures { result ≡ self.now.site }
    {
        self.site
    }

    /// Returns the number of the meal, from 1.
    pub fn k(&self) -> u32
        ensures { result ≡ self.now.k }
    {
        self.k
    }

    /// Returns the number of forks that the site eats with.
    pub fn len(&self) -> u32
        ensures { result ≡ length self.now.forks }
    {
        self.hands.len() as u32
    }

    /// Returns fork `i`, from 0, in the order of the hands that `begin` took.
    pub fn fork(&self, i: u32) -> &Fork
        requires { i < length self.now.forks }
        ensures { slice_get self.now.forks i ≡ Some result.now }
    {
        self.hands[i as usize].fork()
    }

    /// Ends the meal and returns the forks in the same order. They are dirty, and their logs stay.
    pub fn end(self) -> Vec<Held>
        ensures forks { result.items ≡ self.forks }
        ensures dirty { All IsDirty result.items }
    {
        let Meal {
            site: _,
            k: _,
            hands,
        } = self;
        hands
    }
}
