//! Steps in the ranges of a script.

ghost use Rattle.std.specs.Prelude.{◌≡◌, IfOk};
ghost use Rattle.std.specs.List.{All};
ghost use Rattle.usb_script_words.specs.StepRanges.{IsStepInRange};

use std::marker::Model;
use usb_desc::NoMemory;
use usb_kernel::KernelStep;

/// The steps of a line, whose fields are in the ranges of a script. A contract sees the list of
/// them.
#[derive(Clone, Drop)]
pub struct Steps {
    items: Vec<KernelStep>,
}

impl Model for Steps {
    ghost use Rattle.std.specs.Prelude.{List};
    ghost use Rattle.std.specs.List.{All};
    ghost use Rattle.usb_kernel_devices.specs.declared.step.KernelStep.{KernelStep};
    ghost use Rattle.usb_script_words.specs.StepRanges.{IsStepInRange};

    ghost Value = { List KernelStep };

    ghost view = { λ steps. steps.items.items };

    ghost invariant = { λ steps. All IsStepInRange steps.items.items };
}

impl Steps {
    /// These steps, in this order.
    pub fn from_vec(steps: Vec<KernelStep>) -> Steps
        requires in_range { All IsStepInRange steps.items }
        ensures value { result ≡ steps.items }
    {
        Steps { items: steps }
    }

    /// The same steps once more.
    pub fn clone(&self) -> Result<Steps, NoMemory>
        ensures same { IfOk result (λ copy. copy ≡ self.now) }
    {
        Ok(Clone::clone(self)?)
    }

    /// The steps in order.
    pub fn as_slice(&self) -> &[KernelStep]
        ensures value { result.now ≡ self.now }
        ensures in_range { All IsStepInRange result.now }
    {
        self.items.as_slice()
    }

    /// The steps in order, given back.
    pub fn into_vec(self) -> Vec<KernelStep>
        ensures value { result.items ≡ self }
        ensures in_range { All IsStepInRange result.items }
    {
        self.items
    }
}
