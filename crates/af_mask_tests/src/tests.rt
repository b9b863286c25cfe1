mod comparing;
mod making;
mod numbers;
mod plain;
