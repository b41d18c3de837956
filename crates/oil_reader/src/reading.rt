//! OIL: grammar and standard objects. Bytes to the file that they mean.

ghost use Rattle.std.specs.Prelude.{◌≡◌, ℕ, List, IfOk, IfErr};
ghost use Rattle.oil_reader.specs.Older.{MeantThen};
ghost use Rattle.oil_reader.specs.Configuration.{Configuration};
ghost use Rattle.oil_reader.specs.declared.fault.OilFault.{OilFault};
ghost use Rattle.oil_reader.specs.declared.fault.OilFault.TheVariants.{Memory};
ghost use Rattle.oil_reader.specs.Attributes.{IsSoundFile};
ghost use Rattle.oil_reader.specs.Faults.{IsTreeOf, HasSyntaxFault, HasFault, Means};
ghost use Rattle.oil_reader.specs.Trees.{file_of};

use crate::fault::OilFault;
use crate::file::OilFile;
use crate::object_faults::file_fault;
use crate::object_values::oil_file;
use crate::parser::parse;
use crate::syntax::SyntaxTree;
use crate::tokens::tokenize;
use std::alloc::Global;

/// The tree of a text.
fn read_tree(alloc: Global, text: &[u8]) -> Result<SyntaxTree<'_>, OilFault>
    ensures ok { IfOk result (λ tree. IsTreeOf text.now (file_of tree)) }
    ensures err { IfErr result (λ e. HasSyntaxFault text.now e) }
{
    let tokens = tokenize(alloc, text)?;
    parse(alloc, text.len(), &tokens)
}

/// The file that a text means, or its first fault.
fn read(alloc: Global, text: &[u8]) -> Result<OilFile, OilFault>
    ensures ok { IfOk result (λ file. Means text.now file) }
    ensures err { IfErr result (λ e. HasFault text.now e) }
{
    let tree = read_tree(alloc, text)?;
    if let Some(fault) = file_fault(alloc, &tree)? {
        return Err(fault);
    }
    Ok(oil_file(alloc, &tree)?)
}

/// Reads an OIL file (OIL 2.5: grammar, standard objects and their attributes).
///
/// The file is the one that the text means. Where the text has a fault, its first one is answered. Want of memory is
/// answered where a growth was refused, and then nothing is known of the text. A text that had a meaning when the PRIORITY
/// of a task ended at 31 has the same meaning now.
pub fn read_oil(alloc: Global, text: &[u8]) -> Result<OilFile, OilFault>
    ensures ok { IfOk result (λ file. Means text.now file) }
    ensures err { IfErr result (λ e. HasFault text.now e) }
    ensures older { (c : Configuration) → MeantThen text.now c → IfOk result (λ file. file ≡ c) }
    ensures accepted { (c : Configuration) → MeantThen text.now c → IfErr result (λ e. e ≡ Memory) }
{
    read(alloc, text)
}

/// A law of the definitions: a text means one file, or has one first fault, and never both. Want of memory is no fault
/// of a text.
pub fn one_meaning()
    ensures files { (text : List ℕ) (c d : Configuration) → Means text c → Means text d → c ≡ d }
    ensures faults { (text : List ℕ) (e g : OilFault) → ¬ (e ≡ Memory) → ¬ (g ≡ Memory)
        → HasFault text e → HasFault text g → e ≡ g }
    ensures apart { (text : List ℕ) (c : Configuration) (e : OilFault) → ¬ (e ≡ Memory)
        → Means text c → HasFault text e → ⊥ }
{}
