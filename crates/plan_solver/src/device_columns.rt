//! The columns of each device, in the order of its places.
ghost use Rattle.std.specs.Prelude.{◌≡◌, ℕ, ◌<◌, [], ◌∷◌, ◌++◌, IfOk, OnOk, length, slice_index_or, slice_set, vec_len};

use std::alloc::{AllocError, Global};
use std::marker::Model;

/// The numbers of the columns of one device, that of the last place first. In clauses it is the list of them.
#[derive(Drop)]
pub(crate) struct DeviceColumns {
    columns: Vec<usize>,
}

impl Model for DeviceColumns {
    ghost use Rattle.std.specs.Prelude.{ℕ, List};

    ghost Value = { List ℕ };

    ghost view = { λ device_columns. device_columns.columns.items };
}

impl DeviceColumns {
    /// Creates the list of a device without columns.
    fn new(alloc: Global) -> DeviceColumns
        ensures { result ≡ [] }
    {
        DeviceColumns {
            columns: Vec::new(alloc),
        }
    }

    /// The numbers of the columns.
    pub(crate) fn columns(&self) -> &[usize]
        ensures { result.now ≡ self.now }
    {
        &self.columns
    }

    /// Appends the column of the place before all others.
    fn push(&mut self, column: usize) -> Result<(), AllocError>
        ensures { OnOk result (self.new ≡ self.old ++ column ∷ []) }
    {
        self.columns.push(column)?;
        Ok(())
    }
}

/// The lists of this many devices without columns.
pub(crate) fn no_columns(alloc: Global, devices: usize) -> Result<Vec<DeviceColumns>, AllocError>
    ensures len { IfOk result (λ by_device. vec_len by_device ≡ devices) }
    ensures empty { IfOk result (λ by_device. (d : ℕ) → d < devices → slice_index_or by_device.items d [] ≡ []) }
{
    let mut by_device = Vec::new(alloc);
    for _ in 0..devices {
        by_device.push(DeviceColumns::new(alloc))?;
    }
    Ok(by_device)
}

/// Appends a column to the list of its device.
pub(crate) fn add_to_device(
    by_device: &mut [DeviceColumns],
    device: usize,
    column: usize,
) -> Result<(), AllocError>
    requires { device < length by_device.old }
    ensures { OnOk result (by_device.new ≡ slice_set by_device.old device (slice_index_or by_device.old device [] ++ column ∷ [])) }
{
    by_device[device].push(column)?;
    Ok(())
}
