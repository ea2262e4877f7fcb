// The installed firmware: rows, each a GUID of sixteen bytes, and a version for each: two slices, as document 01 and C lend them.
ghost use Rattle.std.specs.Prelude.{◌≡◌};

#[derive(Clone, Copy)]
pub(crate) struct Installed<'a> {
    pub(crate) rows: &'a [[u8; 16]],
    pub(crate) versions: &'a [u32],
}

impl Installed<'_> {
    ghost use Rattle.dependency.specs.Installed.{first_with};
    ghost use Rattle.dependency.specs.Stack.{found_version};

    // The version of the first row that is this GUID.
    pub(crate) fn version_of(&self, guid: &[u8]) -> Option<u32>
        ensures { found_version result ≡ first_with self.now.rows.now self.now.versions.now guid.now }
    {
        for (row, version) in self.rows.iter().zip(self.versions) {
            if row.as_slice() == guid {
                return Some(*version);
            }
        }
        None
    }
}
