// What most exports do with a handle.

/// Takes out what the handle holds, does this call of it, puts it back, and returns what the call returned. If the
/// handle is closed, or what it holds is of another kind, that is returned, and nothing is done. With `mut` the call
/// may change what is held.
macro_rules! on_held {
    ($alloc:ident, $handle:ident, Plan($own:ident) => $call:expr) => {
        on_held!(@ $alloc, $handle, [], Plan($own) => $call, World Site Builder)
    };
    ($alloc:ident, $handle:ident, World($own:ident) => $call:expr) => {
        on_held!(@ $alloc, $handle, [], World($own) => $call, Plan Site Builder)
    };
    ($alloc:ident, $handle:ident, mut World($own:ident) => $call:expr) => {
        on_held!(@ $alloc, $handle, [mut], World($own) => $call, Plan Site Builder)
    };
    ($alloc:ident, $handle:ident, Site($own:ident) => $call:expr) => {
        on_held!(@ $alloc, $handle, [], Site($own) => $call, Plan World Builder)
    };
    ($alloc:ident, $handle:ident, mut Site($own:ident) => $call:expr) => {
        on_held!(@ $alloc, $handle, [mut], Site($own) => $call, Plan World Builder)
    };
    ($alloc:ident, $handle:ident, mut Builder($own:ident) => $call:expr) => {
        on_held!(@ $alloc, $handle, [mut], Builder($own) => $call, Plan World Site)
    };
    (
        @ $alloc:ident, $handle:ident, [$($change:tt)?], $kind:ident($own:ident) => $call:expr,
        $first:ident $second:ident $third:ident
    ) => {{
        let Some($($change)? contents) = $handle.take($alloc) else {
            return $crate::status::CLOSED;
        };
        let answer = match &$($change)? contents.object {
            $crate::contents::Object::$kind($own) => $call,
            $crate::contents::Object::$first(_)
            | $crate::contents::Object::$second(_)
            | $crate::contents::Object::$third(_) => $crate::status::OTHER_KIND,
        };
        $handle.put(contents);
        answer
    }};
}

pub(crate) use on_held;
