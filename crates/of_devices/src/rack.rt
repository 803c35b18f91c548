ghost use Rattle.std.specs.Prelude.{◌≡◌, [], map, true};
ghost use Rattle.of_asking.specs.Questions.{fits};
ghost use Rattle.of_devices.specs.Racks.{rack_answer, rack_told, told, untaken};

use crate::device::Device;
use of_asking::{Answer, Query};

/// Devices, the first of which that takes a question answers it.
pub type Rack = Vec<Box<dyn Device>>;

/// Whether a device takes a question.
fn takes(device: &Box<dyn Device>, query: Query) -> bool
    ensures { result ≡ (meant device.now).takes query }
{
    device.takes(query)
}

/// The answer of a device to a question that it takes.
fn tell(device: &mut Box<dyn Device>, query: Query) -> Answer
    requires { (meant device.old).takes query ≡ true }
    ensures answer { result ≡ (meant device.old).meaning [] query }
    ensures fits { fits query result ≡ true }
    ensures told { meant device.new ≡ told query (meant device.old) }
{
    device.answer(query)
}

/// The answer where no device takes a question.
pub(crate) fn nothing(query: Query) -> Answer
    ensures answer { result ≡ untaken query }
    ensures fits { fits query result ≡ true }
{
    match query {
        Query::Read(_, _) => Answer::BusFault,
        Query::Write(_, _, _) => Answer::BusFault,
        Query::Peek(_, _) => Answer::BusFault,
        Query::Poke(_, _, _) => Answer::BusFault,
        Query::Key => Answer::Value(0),
        Query::KeyReady => Answer::Value(0),
        Query::Milliseconds => Answer::Value(0),
        Query::Wait(_) => Answer::Done,
    }
}

/// What the first device of a rack that takes a question answers. Where none does, it is BusFault for what goes over
/// the bus, Done for Wait, and else the Value 0.
pub fn ask(rack: &mut Rack, query: Query) -> Answer
    ensures answer { result ≡ rack_answer (map (λ d. meant d) rack.old.items) query }
    ensures fits { fits query result ≡ true }
    ensures told { map (λ d. meant d) rack.new.items ≡ rack_told (map (λ d. meant d) rack.old.items) query }
{
    for i in 0..rack.len() {
        if takes(&rack[i], query) {
            return tell(&mut rack[i], query);
        }
    }
    nothing(query)
}
