/// The values, one after another, as nested [`Concat`](crate::adapters::Concat).
#[macro_export]
macro_rules! concat_writeable {
    ($first:expr) => {
        $first
    };
    ($first:expr, $($rest:expr),+ $(,)?) => {
        $crate::adapters::Concat($first, $crate::concat_writeable!($($rest),+))
    };
}
