//! Why a run came to no end.

ghost use Rattle.std.specs.Prelude.{◌≡◌};

use arrival_reader::IrqFault;
use kernel::BootFault;
use oil_reader::OilFault;
use partition_check::NamedDenial;
use sinks::SinkFault;
use std::alloc::AllocError;
use std::io;
use system_gen::GenFault;
use task_asm::AsmFault;
use thiserror::Error;

/// Why a run came to no end: the first refusal of an input, want of memory, or a failed write.
#[derive(Debug, Drop, Error)]
pub enum RunFault {
    /// The OIL text is refused.
    #[error("oil: {0}")]
    Oil(OilFault),
    /// The program text is refused.
    #[error("asm: {0}")]
    Asm(AsmFault),
    /// The OIL file and the programs make no system.
    #[error("gen: {0}")]
    Gen(GenFault),
    /// The upper part of the system isn't separable at the priority of a view.
    #[error("denied: {0}")]
    Denied(NamedDenial),
    /// The arrival list is refused.
    #[error("irq: {0}")]
    Irq(IrqFault),
    /// The system isn't booted.
    #[error("boot: {0}")]
    Boot(BootFault),
    /// Memory was refused.
    #[error("memory")]
    Memory,
    /// A write failed.
    #[error("write")]
    Write,
}

impl From<SinkFault> for RunFault {
    ghost use Rattle.tracer.specs.declared.run_fault.RunFault.TheVariants.{Write};

    ghost from_gives = { λ _ e. e ≡ Write };

    fn from(_fault: SinkFault) -> RunFault {
        RunFault::Write
    }
}

impl From<io::Error> for RunFault {
    ghost use Rattle.tracer.specs.declared.run_fault.RunFault.TheVariants.{Write};

    ghost from_gives = { λ _ e. e ≡ Write };

    fn from(_error: io::Error) -> RunFault {
        RunFault::Write
    }
}

impl From<AllocError> for RunFault {
    ghost use Rattle.tracer.specs.declared.run_fault.RunFault.TheVariants.{Memory};

    ghost from_gives = { λ _ e. e ≡ Memory };

    fn from(_error: AllocError) -> RunFault {
        RunFault::Memory
    }
}

impl From<OilFault> for RunFault {
    ghost use Rattle.tracer.specs.RunFaults.{of_oil};

    ghost from_gives = { λ fault e. e ≡ of_oil fault };

    fn from(fault: OilFault) -> RunFault {
        match fault {
            OilFault::Memory => RunFault::Memory,
            fault => RunFault::Oil(fault),
        }
    }
}

impl From<AsmFault> for RunFault {
    ghost use Rattle.tracer.specs.RunFaults.{of_asm};

    ghost from_gives = { λ fault e. e ≡ of_asm fault };

    fn from(fault: AsmFault) -> RunFault {
        match fault {
            AsmFault::Memory => RunFault::Memory,
            fault => RunFault::Asm(fault),
        }
    }
}

impl From<GenFault> for RunFault {
    ghost use Rattle.tracer.specs.RunFaults.{of_gen};

    ghost from_gives = { λ fault e. e ≡ of_gen fault };

    fn from(fault: GenFault) -> RunFault {
        match fault {
            GenFault::Memory => RunFault::Memory,
            fault => RunFault::Gen(fault),
        }
    }
}

impl From<IrqFault> for RunFault {
    ghost use Rattle.tracer.specs.RunFaults.{of_irq};

    ghost from_gives = { λ fault e. e ≡ of_irq fault };

    fn from(fault: IrqFault) -> RunFault {
        match fault {
            IrqFault::Memory => RunFault::Memory,
            fault => RunFault::Irq(fault),
        }
    }
}

impl From<BootFault> for RunFault {
    ghost use Rattle.tracer.specs.RunFaults.{of_boot};

    ghost from_gives = { λ fault e. e ≡ of_boot fault };

    fn from(fault: BootFault) -> RunFault {
        match fault {
            BootFault::Memory => RunFault::Memory,
            fault => RunFault::Boot(fault),
        }
    }
}
