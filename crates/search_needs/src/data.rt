//! Whether what is needed behind an instruction is worked out from what is needed before it.

ghost use Rattle.std.specs.Prelude.{◌≡◌, ◌<◌, ◌&&◌, IsTrue, length};
ghost use Rattle.osek_base.specs.declared.instr.Plain.{Plain};
ghost use Rattle.osek_base.specs.declared.instr.Service.{Service};
ghost use Rattle.law_future.specs.Need.{implies};
ghost use Rattle.search_needs.specs.Entries.{PlainFollows, service_follows};
ghost use Rattle.search_needs.specs.Table.{has, declared_in};

use crate::indices::indices_at;
use crate::numbers::Numbers;
use crate::table::OwnerNeeds;
use osek_base::{Plain, Register, ResId, ResourceNumber, Service};

fn implies(a: bool, b: bool) -> bool
    ensures { result ≡ implies a b }
{
    !a || b
}

fn both(a: bool, b: bool) -> bool
    ensures { result ≡ (a && b) }
{
    a && b
}

fn needs(own: &OwnerNeeds, register: Register) -> bool
    ensures { result ≡ has own.now.registers register }
{
    own.registers.has(register.number())
}

fn needs_both(own: &OwnerNeeds, a: Register, b: Register) -> bool
    ensures { result ≡ (has own.now.registers a && has own.now.registers b) }
{
    both(needs(own, a), needs(own, b))
}

fn load_follows(own: &OwnerNeeds, place: usize, d: Register, a: Register) -> bool
    requires { place < length own.now.indices.items }
    ensures { IsTrue result → PlainFollows own.now place (Plain.Ld d a) }
{
    if !needs(own, d) {
        return true;
    }
    let words = indices_at(&own.indices, place, a).is_within(own.words);
    both(needs(own, a), words)
}

fn store_follows(own: &OwnerNeeds, place: usize, a: Register, b: Register) -> bool
    requires { place < length own.now.indices.items }
    ensures { IsTrue result → PlainFollows own.now place (Plain.St a b) }
{
    let index = implies(!own.words.is_empty(), needs(own, a));
    let value = implies(
        !indices_at(&own.indices, place, a).is_apart(own.words),
        needs(own, b),
    );
    both(index, value)
}

/// Whether a plain instruction's data follows; at true it does.
pub(crate) fn data_follows(own: &OwnerNeeds, place: usize, plain: &Plain) -> bool
    requires { place < length own.now.indices.items }
    ensures { IsTrue result → PlainFollows own.now place plain.now }
{
    match plain {
        Plain::Mov(d, a) => implies(needs(own, *d), needs(own, *a)),
        Plain::Compute(_, d, a, b) => implies(needs(own, *d), needs_both(own, *a, *b)),
        Plain::Ld(d, a) => load_follows(own, place, *d, *a),
        Plain::St(a, b) => store_follows(own, place, *a, *b),
        Plain::JumpIf(_, a, b, _) => needs_both(own, *a, *b),
        _ => true,
    }
}

/// The declared resource of an operand.
pub(crate) fn declared(operand: &Option<ResId>) -> Option<ResourceNumber>
    ensures { result ≡ declared_in operand.now }
{
    match operand {
        None => None,
        Some(resource) => match resource {
            ResId::Declared(number) => Some(*number),
            ResId::Scheduler => None,
        },
    }
}

fn shared_load_follows(
    own: &OwnerNeeds,
    shared: Numbers,
    operand: &Option<ResId>,
    index: Register,
) -> bool
    ensures { result ≡ service_follows own.now shared (Service.LoadShared operand.now index) }
{
    match declared(operand) {
        None => true,
        Some(number) => implies(
            needs(own, Register::new(1)),
            both(needs(own, index), shared.has(number.number())),
        ),
    }
}

fn shared_store_follows(
    own: &OwnerNeeds,
    shared: Numbers,
    operand: &Option<ResId>,
    index: Register,
    value: Register,
) -> bool
    ensures { result
        ≡ service_follows own.now shared (Service.StoreShared operand.now index value) }
{
    match declared(operand) {
        None => true,
        Some(number) => implies(shared.has(number.number()), needs_both(own, index, value)),
    }
}

/// Whether a service's data follows.
pub(crate) fn service_follows(
    own: &OwnerNeeds,
    shared: Numbers,
    service: &Service<Register>,
) -> bool
    ensures { result ≡ service_follows own.now shared service.now }
{
    match service {
        Service::SetRelAlarm(_, a, b) => needs_both(own, *a, *b),
        Service::SetAbsAlarm(_, a, b) => needs_both(own, *a, *b),
        Service::LoadShared(operand, index) => { shared_load_follows(own, shared, operand, *index) }
        Service::StoreShared(operand, index, value) => {
            shared_store_follows(own, shared, operand, *index, *value)
        }
        _ => true,
    }
}
