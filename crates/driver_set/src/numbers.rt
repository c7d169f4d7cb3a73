//! The numbers of drivers.
ghost use Rattle.std.specs.Prelude.{◌≡◌, ℕ, ◌<◌, length, Some, IfOk, slice_get, slice_index};
ghost use Rattle.std.specs.List.{All};
ghost use Rattle.driver_set.specs.Numbers.{number_of};

use std::alloc::{AllocError, Global};
use std::marker::Model;

/// The driven signals in signal order, and the number of each signal's driver. Contracts see the driven signals.
#[derive(Drop)]
pub struct DriverNumbers {
    signals: Vec<u32>,
    numbers: Vec<u32>,
}

impl Model for DriverNumbers {
    ghost use Rattle.std.specs.Prelude.{List, ℕ};
    ghost use Rattle.driver_set.specs.Numbers.{AreNumbered};

    ghost Value = { List ℕ };

    ghost view = { λ a. a.signals.items };

    ghost invariant = { λ a. AreNumbered a.signals.items a.numbers.items };
}

/// The number of the driver of each signal. One that isn't driven has the number of drivers.
fn numbers_of(alloc: Global, signals: u32, driven: &[u32]) -> Result<Vec<u32>, AllocError>
    requires within { All (λ i. i < signals) driven.now }
    requires count { length driven.now < 4294967296 }
    ensures length { IfOk result (λ numbers. length numbers.items ≡ signals) }
    ensures numbers { IfOk result (λ numbers. (i : ℕ) → i < signals → slice_index numbers.items i ≡ number_of driven.now i) }
{
    let mut numbers = vec![in alloc; driven.len() as u32; signals as usize]?;
    let mut number = driven.len();
    while number > 0 {
        number -= 1;
        numbers[driven[number] as usize] = number as u32;
    }
    Ok(numbers)
}

impl DriverNumbers {
    /// The numbers of the drivers of these signals, of so many.
    pub fn new(alloc: Global, signals: u32, driven: Vec<u32>) -> Result<DriverNumbers, AllocError>
        requires within { All (λ i. i < signals) driven.items }
        requires count { length driven.items < 4294967296 }
        ensures { IfOk result (λ numbers. numbers ≡ driven.items) }
    {
        let numbers = numbers_of(alloc, signals, driven.as_slice())?;
        Ok(DriverNumbers {
            signals: driven,
            numbers,
        })
    }

    /// The driven signals, in signal order.
    pub fn driven(&self) -> &[u32]
        ensures { result.now ≡ self.now }
    {
        self.signals.as_slice()
    }

    /// The number of a signal's driver.
    pub fn number(&self, signal: u32) -> u32
        requires { number_of self.now signal < length self.now }
        ensures { result ≡ number_of self.now signal }
    {
        self.numbers[signal as usize]
    }

    /// The signal of a driver.
    pub fn signal(&self, number: u32) -> u32
        requires { number < length self.now }
        ensures { slice_get self.now number ≡ Some result }
    {
        self.signals[number as usize]
    }
}
