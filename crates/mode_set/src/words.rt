// The words that select a value in a settings document.
ghost use Rattle.std.specs.Prelude.{◌≡◌, ℕ, List};
ghost use Rattle.mode_set.specs.Values.{chosen, mode_words, shape_words, hierarchy_words, rate_words, guard_words};
ghost use Rattle.mode_set.specs.Values.{start_words};

use crate::{Guard, Hierarchy, Mode, Rate, Shape, Start};

/// A value that a document selects by a word.
pub(crate) trait Word: Copy {
    ghost words: { List (List ℕ × Self) };

    fn from_word(text: &str) -> Option<Self>
        ensures { result ≡ chosen words text.now };
}

impl Word for Mode {
    ghost words = { mode_words };

    fn from_word(text: &str) -> Option<Self> {
        match text {
            "2k" => Some(Mode::M2k),
            "8k" => Some(Mode::M8k),
            _ => None,
        }
    }
}

impl Word for Shape {
    ghost words = { shape_words };

    fn from_word(text: &str) -> Option<Self> {
        match text {
            "qpsk" => Some(Shape::Qpsk),
            "16qam" => Some(Shape::Qam16),
            "64qam" => Some(Shape::Qam64),
            _ => None,
        }
    }
}

impl Word for Hierarchy {
    ghost words = { hierarchy_words };

    fn from_word(text: &str) -> Option<Self> {
        match text {
            "none" => Some(Hierarchy::Flat),
            "1" => Some(Hierarchy::Alpha1),
            "2" => Some(Hierarchy::Alpha2),
            "4" => Some(Hierarchy::Alpha4),
            _ => None,
        }
    }
}

impl Word for Rate {
    ghost words = { rate_words };

    fn from_word(text: &str) -> Option<Self> {
        match text {
            "1/2" => Some(Rate::R1of2),
            "2/3" => Some(Rate::R2of3),
            "3/4" => Some(Rate::R3of4),
            "5/6" => Some(Rate::R5of6),
            "7/8" => Some(Rate::R7of8),
            _ => None,
        }
    }
}

impl Word for Guard {
    ghost words = { guard_words };

    fn from_word(text: &str) -> Option<Self> {
        match text {
            "1/32" => Some(Guard::G1of32),
            "1/16" => Some(Guard::G1of16),
            "1/8" => Some(Guard::G1of8),
            "1/4" => Some(Guard::G1of4),
            _ => None,
        }
    }
}

impl Word for Start {
    ghost words = { start_words };

    fn from_word(text: &str) -> Option<Self> {
        match text {
            "zero" => Some(Start::Zero),
            "any" => Some(Start::Any),
            _ => None,
        }
    }
}
