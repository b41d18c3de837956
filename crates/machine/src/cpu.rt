//! The registers and the place of who executes.

ghost use Rattle.std.specs.Prelude.{◌≡◌, ◌<◌, ◌+◌, length};
ghost use Rattle.osek_base.specs.Instruction.{value, next, with_value};
ghost use Rattle.osek_base.specs.State.{fresh_context};
ghost use Rattle.osek_base.specs.Tick.{answered, at_values, with_results};

use osek_base::{MAX_INSTRUCTIONS, Place, REGISTERS, Register, Results, Service, Status};
use std::marker::Model;

/// The registers of 32 bits and the place in the program. Contracts see both as one context.
#[derive(Clone, Copy)]
pub struct Cpu {
    registers: [u32; REGISTERS],
    place: Place,
}

impl Model for Cpu {
    ghost use Rattle.osek_base.specs.Instruction.{Context};

    ghost Value = { Context };

    ghost view = { λ c. record { registers = c.registers; place = c.place } };

    ghost inverse = { λ x. record { registers = x.registers; place = x.place } };
}

impl Cpu {
    /// The registers and the place are 0.
    pub fn new() -> Self
        ensures { result ≡ fresh_context }
    {
        Cpu {
            registers: [0; REGISTERS],
            place: Place::new(0),
        }
    }

    /// The registers and the place, to be kept.
    #[inline(always)]
    pub fn save(&self) -> Cpu
        ensures { result ≡ self.now }
    {
        *self
    }

    /// The registers and the place become those that `save` took.
    #[inline(always)]
    pub fn load(&mut self, saved: &Cpu)
        ensures { self.new ≡ saved.now }
    {
        *self = *saved;
    }

    /// The place of the next instruction, counted from 0.
    #[inline(always)]
    pub fn place(&self) -> Place
        ensures { result ≡ self.now.place }
    {
        self.place
    }

    /// The value of a register.
    #[inline(always)]
    pub fn value(&self, register: Register) -> u32
        ensures { result ≡ value self.now register }
    {
        self.registers[register.number() as usize]
    }

    /// Gives a register a value; the place stays.
    #[inline(always)]
    pub fn set(&mut self, register: Register, new: u32)
        ensures { self.new ≡ with_value self.old register new }
    {
        self.registers[register.number() as usize] = new;
    }

    /// Goes on to the next instruction; the registers stay.
    #[inline(always)]
    pub fn go_on(&mut self)
        requires { self.old.place + 1 < MAX_INSTRUCTIONS }
        ensures { self.new ≡ next self.old }
    {
        self.place = self.place.next();
    }

    /// Goes on at a place; the registers stay.
    #[inline(always)]
    pub fn jump(&mut self, to: Place)
        ensures { self.new ≡ record self.old { place = to } }
    {
        self.place = to;
    }

    /// Takes what a service answers: the status into r0, the results into r1 to r3. Goes on to the next instruction.
    #[inline(always)]
    pub fn answer(&mut self, status: Status, results: &Results)
        requires { self.old.place + 1 < MAX_INSTRUCTIONS }
        ensures { self.new ≡ answered status results.now self.old }
    {
        self.set(Register::new(0), u32::from(status.number()));
        match *results {
            Results::Nothing => {}
            Results::One(a) => self.set(Register::new(1), a),
            Results::Three(a, b, c) => {
                self.set(Register::new(1), a);
                self.set(Register::new(2), b);
                self.set(Register::new(3), c);
            }
        }
        self.go_on();
    }

    /// A service of a program with the values of its registers.
    #[inline(always)]
    pub fn with_values(&self, service: &Service<Register>) -> Service<u32>
        ensures { result ≡ at_values self.now service.now }
    {
        match *service {
            Service::ActivateTask(task) => Service::ActivateTask(task),
            Service::TerminateTask => Service::TerminateTask,
            Service::ChainTask(task) => Service::ChainTask(task),
            Service::Schedule => Service::Schedule,
            Service::GetTaskId => Service::GetTaskId,
            Service::GetTaskState(task) => Service::GetTaskState(task),
            Service::GetResource(resource) => Service::GetResource(resource),
            Service::ReleaseResource(resource) => Service::ReleaseResource(resource),
            Service::LoadShared(resource, index) => {
                Service::LoadShared(resource, self.value(index))
            }
            Service::StoreShared(resource, index, new) => {
                Service::StoreShared(resource, self.value(index), self.value(new))
            }
            Service::SetEvent(task, mask) => Service::SetEvent(task, mask),
            Service::ClearEvent(mask) => Service::ClearEvent(mask),
            Service::GetEvent(task) => Service::GetEvent(task),
            Service::WaitEvent(mask) => Service::WaitEvent(mask),
            Service::SetRelAlarm(alarm, increment, cycle) => {
                Service::SetRelAlarm(alarm, self.value(increment), self.value(cycle))
            }
            Service::SetAbsAlarm(alarm, start, cycle) => {
                Service::SetAbsAlarm(alarm, self.value(start), self.value(cycle))
            }
            Service::CancelAlarm(alarm) => Service::CancelAlarm(alarm),
            Service::GetAlarm(alarm) => Service::GetAlarm(alarm),
            Service::GetAlarmBase(alarm) => Service::GetAlarmBase(alarm),
        }
    }
}
