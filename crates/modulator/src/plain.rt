// The next symbol by the plain programs of the inner coder and of the symbol builder: a test compares what is faster
// with it.
ghost use Rattle.std.specs.Prelude.{◌≡◌, ◌+◌, ◌*◌, ◌^◌, ◌<◌, ◌≤◌, ◌++◌, None, vec_capacity, vec_len};
ghost use Rattle.transmission.specs.Transmission.{Inputs, tx_symbol};
ghost use Rattle.modulator.specs.State.{HasPut, StandsFor, wanted};

use crate::Modulator;
use crate::next_labels::next_labels;
use frame_build::{symbols_follow_labels, symbols_repeat};
use mode_set::Carriers;
use symbol_parameters::laws::{settings as super_frame_settings, steps};
use symbol_parameters::parameters_of_symbol;

impl<M: Carriers> Modulator<M> {
    /// Makes the next symbol of the transmission and appends its bytes, five for each carrier: its cell and weight 15.
    /// They are those after the header of a cell file. Call it if `wants` returns `Symbol` and fewer than 2^32 symbols
    /// were made; the spare capacity of `to` must suffice for the bytes.
    pub fn symbol(&mut self, to: &mut Vec<u8>)
        requires wanted { wanted self.old ≡ None }
        requires few { self.old.made < 2 ^ 32 }
        requires spare { vec_len to.old + 5 * M.K ≤ vec_capacity to.old }
        ensures settings { self.new.settings ≡ self.old.settings }
        ensures made { self.new.made ≡ self.old.made + 1 }
        ensures hp { self.new.hp ≡ self.old.hp }
        ensures lp { self.new.lp ≡ self.old.lp }
        ensures put { (inputs : Inputs) → HasPut self.old inputs → HasPut self.new inputs }
        ensures stands { (packets : Inputs) → StandsFor self.old packets → StandsFor self.new packets }

        // The bytes are those of the next symbol in every transmission that begins with the packets put.
        ensures bytes { (inputs : Inputs) → HasPut self.old inputs → to.new.items ≡ to.old.items
            ++ tx_symbol self.old.settings inputs self.old.made }
        ensures len { vec_len to.new ≡ vec_len to.old + 5 * M.K }
        ensures capacity { vec_capacity to.new ≡ vec_capacity to.old }
    {
        steps();
        super_frame_settings();
        symbols_repeat(self.made);
        symbols_follow_labels(self.settings.mode, self.made);
        let now = parameters_of_symbol(&self.settings, self.made);
        let next = parameters_of_symbol(&self.settings, self.made + 272);
        next_labels(
            &now,
            self.made % 2 == 1,
            &mut self.inner,
            &mut self.hp.waiting,
            &mut self.lp.waiting,
            &mut self.labels,
        );
        self.out.write(&now, &next, &self.labels, to);
        self.made += 1;
    }
}
