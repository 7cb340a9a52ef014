//! The descriptors of standard input, output and error.

// The greatest of them: they are 0, 1 and 2.
const LAST: i32 = 2;

/// Takes the numbers of standard input, output and error, as far as they are closed, so that nothing that is opened later
/// is taken for one of them.
///
/// All the same nothing comes from them, and a write to them is an error: they are open for reading alone. A program
/// that is started finds them closed.
pub fn hold_descriptors() {
    // What is opened gets the least number that is free.
    for _ in 0..=LAST {
        let descriptor = os::open_read(b"/dev/null");
        if descriptor > LAST {
            libc::close(descriptor);
            return;
        }
    }
}
