// `assert_eq!` in a function: its steps are proved here once, and not at each call. What has to be known afterwards is
// asserted by `assert!`.
pub fn same<T: PartialEq + std::fmt::Debug>(rt: &impl std::process::Abort, left: &T, right: &T) {
    assert_eq!(rt; *left, *right);
}
