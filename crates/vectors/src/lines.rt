// Files of lines that are compared one by one.
use anyhow::anyhow;
use std::alloc::Global;

// Compares every line, and answers how many there are; `agrees` says whether the library answers as a line says.
pub fn compare<F: Fn(Global, &str) -> anyhow::Result<bool>>(
    heap: Global,
    lines: &str,
    agrees: F,
) -> anyhow::Result<usize>
    requires { F.IsAlwaysCallable agrees }
{
    let mut count = 0usize;
    for line in lines.lines().filter(|line| !line.starts_with("#")) {
        if !agrees(heap, line)? {
            return Err(anyhow!(format!(in heap; "differs: {line}")?));
        }
        count = count.saturating_add(1);
    }
    Ok(count)
}
