ghost use Rattle.std.specs.Prelude.{◌≡◌};
ghost use Rattle.runs.specs.Runs.{reply, next};
ghost use Rattle.floors.specs.Views.{view, plan_sheet};

use crate::floor::Floor;
use airs::Air;
use runs::{Answer, Call, Value};

impl<A: Air> Floor<A> {
    /// Performs one call.
    pub fn perform_one(&mut self, call: Call) -> Answer
        ensures answer { result ≡ reply A.size (view A.lanes self.old) call }
        ensures after { view A.lanes self.new ≡ next A.size (view A.lanes self.old) call }
        ensures plan { plan_sheet self.new ≡ plan_sheet self.old }
    {
        match call {
            Call::Transmit { site, word } => self.transmit(site, word).map(Value::Count),
            Call::Speak { site } => self.speak(site).map(Value::Count),
            Call::Turn => self.turn().map(Value::Count),
            Call::Held { site } => self.held(site).map(Value::Bit),
            Call::Decision { site } => self.decision(site).map(Value::Bit),
            Call::Recalled { site, word } => self.recalled(site, word).map(Value::Bit),
        }
    }
}
