//! The smallest document: a number, which a step replaces.

ghost use Rattle.std.specs.Prelude.{◌≡◌, OnErr, OnOk, [], ◌∷◌};

use cam_edits::Reversible;
use std::alloc::AllocError;

#[derive(Drop)]
pub(super) struct Sheet {
    pub(super) number: u32,
}

/// Writes a number over the one that stands.
#[derive(Drop)]
pub(super) struct Put {
    pub(super) number: u32,
}

impl Reversible for Put {
    type Doc = Sheet;

    ghost use Rattle.std.specs.Prelude.{ℕ, refl};

    ghost Content = { ℕ };

    ghost content = { λ sheet. sheet.number };

    ghost after = { λ step c. step.number };

    ghost inverse = { λ step c. record { number = c } };

    ghost is_fit = { λ step c. Unit {0} };

    ghost has_room = { λ group sheet. Unit {0} };

    ghost answer_fits = { λ step c fit. tt };

    ghost gives_back_content = { λ step c fit. refl };

    ghost gives_back_step = { λ step c fit. refl };

    ghost last_has_room = { λ rest step sheet room. tt };

    fn fits(&self, _doc: &Sheet) -> bool {
        true
    }

    fn room(_group: &[Put], _doc: &mut Sheet) -> Result<(), AllocError> {
        Ok(())
    }

    fn play(self, doc: &mut Sheet) -> Put {
        let answer = Put { number: doc.number };
        doc.number = self.number;
        answer
    }
}
