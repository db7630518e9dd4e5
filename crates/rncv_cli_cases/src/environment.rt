// An environment with the words of a row.
use case_rows::Row;
use std::env::FillError;
use std::rt::Env;

/// An environment whose words after the program's name are the fields of a row, from the third on.
#[derive(Drop)]
pub struct Environment<'a>(pub &'a Row);

impl Env for Environment<'_> {
    fn arg(&self, i: usize, buf: &mut [u8]) -> Result<usize, FillError> {
        let word = match i {
            0 => b"rncv".as_slice(),
            _ => match self.0.bytes(i.saturating_add(1)) {
                Ok(word) => word,
                Err(_) => return Err(FillError::NotPresent),
            },
        };
        let Some(front) = buf.get_mut(..word.len()) else {
            return Err(FillError::TooLong);
        };
        front.copy_from_slice(word);
        Ok(word.len())
    }

    fn var(&self, _name: &str, _buf: &mut [u8]) -> Result<usize, FillError> {
        Err(FillError::NotPresent)
    }

    fn var_at(&self, _i: usize, _buf: &mut [u8]) -> Result<usize, FillError> {
        Err(FillError::NotPresent)
    }
}
