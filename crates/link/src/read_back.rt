// Reading a written link back.
ghost use Rattle.std.specs.Prelude.{◌≡◌};
ghost use Rattle.profile.specs.Elements.{element_read};
ghost use Rattle.link.specs.ReadBack.{answer_read};

use crate::converter::Converter;
use profile::Element;
use stage::{Colour, Stage};

impl<S: Stage> Converter<S> {
    // What the element that some bytes hold answers to a colour; nothing where they hold none between the stage's channels.
    pub(crate) fn answer_of(&self, element: &[u8], colour: &Colour) -> Option<Colour>
        ensures { let m = S.Stage.meaning self.now.stage in
            result ≡ answer_read (element_read element.now m.ins m.outs) colour.now }
    {
        let element = Element::read(element, self.stage.ins(), self.stage.outs()).ok()?;
        Some(element.answer(colour))
    }
}
